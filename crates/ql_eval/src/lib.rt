//! Bound queries at a row: whether the condition is true of it, and where it stands in the order.
#![tactic(auto)]

ghost use Rattle.std.specs.Prelude.{◌≡◌};

pub mod eval;
mod like;
pub mod order;
pub mod row;
pub mod truth;
mod value;
