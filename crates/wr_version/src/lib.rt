//! Writes on the version series of documents: checking out and checking in.
#![tactic(auto)]

ghost use Rattle.std.specs.Prelude.{◌≡◌};

pub mod after;
pub mod check_in;
pub mod check_out;
mod copying;
mod joining;
