//! The arguments of deleteTree, what they weigh, and what it answers.
#![tactic(auto)]

ghost use Rattle.std.specs.Prelude.{◌≡◌};

pub mod replies;
pub mod weight;
pub mod writes;
