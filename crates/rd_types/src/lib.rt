//! Readings of types and of the repository's information.
#![tactic(auto)]

ghost use Rattle.std.specs.Prelude.{◌≡◌};

pub mod children;
pub mod definition;
pub mod descendants;
pub mod events;
pub mod info;
mod latest;
pub mod law;
