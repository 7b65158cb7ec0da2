//! The arguments of the writes on applied policies, and what they weigh.
#![tactic(auto)]

ghost use Rattle.std.specs.Prelude.{◌≡◌};

pub mod weight;
pub mod writes;
