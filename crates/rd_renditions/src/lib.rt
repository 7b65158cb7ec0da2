//! The reading of the renditions of an object.
#![tactic(auto)]

ghost use Rattle.std.specs.Prelude.{◌≡◌};

pub mod law;
pub mod renditions;
