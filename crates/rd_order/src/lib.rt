//! Lists of objects in the order that is asked for.
#![tactic(auto)]

ghost use Rattle.std.specs.Prelude.{◌≡◌};

mod key;
pub mod law;
pub mod ordered;
