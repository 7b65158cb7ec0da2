//! The renditions of an object, as replies show them.
#![tactic(auto)]

ghost use Rattle.std.specs.Prelude.{◌≡◌};

pub mod law;
pub mod shown;
