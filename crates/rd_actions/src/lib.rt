//! The reading of the actions that a caller is allowed on an object.
#![tactic(auto)]

ghost use Rattle.std.specs.Prelude.{◌≡◌};

pub mod actions;
pub mod law;
