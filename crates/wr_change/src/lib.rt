//! Writes that change the properties of an object.
#![tactic(auto)]

ghost use Rattle.std.specs.Prelude.{◌≡◌};

pub mod change;
mod putting;
mod secondary;
pub mod update;
