//! Readings that show more of objects than their properties, where it is asked for.
#![tactic(auto)]

ghost use Rattle.std.specs.Prelude.{◌≡◌};

pub mod children;
pub mod law;
pub mod listed;
pub mod object;
pub mod parents;
mod version;
pub mod versions;
