//! The update of the properties of several objects in one step.
#![tactic(auto)]

ghost use Rattle.std.specs.Prelude.{◌≡◌};

pub mod bulk_update;
mod each;
