//! The arguments of the update of several objects in one call, what they weigh, and what its reply holds.
#![tactic(auto)]

ghost use Rattle.std.specs.Prelude.{◌≡◌};

pub mod replies;
pub mod weight;
pub mod writes;
