//! What is shown of objects, written as JSON from the state: no reply and no tree stand between.
#![tactic(auto)]

ghost use Rattle.std.specs.Prelude.{◌≡◌};

pub mod children;
pub mod column;
pub mod listing;
pub mod object;
pub mod one;
pub mod sight;
mod value;
