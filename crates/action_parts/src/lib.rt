//! The actions that a caller may be allowed on an object: their names, the arguments of the reading of them, and what its reply holds.
#![tactic(auto)]

ghost use Rattle.std.specs.Prelude.{◌≡◌};

pub mod action;
pub mod readings;
pub mod replies;
