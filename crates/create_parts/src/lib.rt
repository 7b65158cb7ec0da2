//! The arguments of the writes that make an item, a policy or a relationship, and what they weigh.
#![tactic(auto)]

ghost use Rattle.std.specs.Prelude.{◌≡◌};

pub mod weight;
pub mod writes;
