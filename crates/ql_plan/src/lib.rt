//! Queries answered by fetching no more objects than the smallest set that the condition names.
#![tactic(auto)]

ghost use Rattle.std.specs.Prelude.{◌≡◌};

mod candidate;
pub mod key;
pub mod plan;
