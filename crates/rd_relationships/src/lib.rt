//! The reading of the relationships of an object.
#![tactic(auto)]

ghost use Rattle.std.specs.Prelude.{◌≡◌};

pub mod law;
pub mod relationships;
