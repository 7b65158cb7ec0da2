//! The state of a repository: its parts, what is looked up in them, and the states that they make.
#![tactic(auto)]

ghost use Rattle.std.specs.Prelude.{◌≡◌};

pub mod lists;
pub mod look;
pub mod open;
pub mod parts;
pub mod people;
mod standing;
pub mod state;
pub mod told;
