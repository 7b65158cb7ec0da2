//! The reading of the change log.
#![tactic(auto)]

ghost use Rattle.std.specs.Prelude.{◌≡◌};

pub mod changes;
pub mod law;
