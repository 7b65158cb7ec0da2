//! The answer to a query.
#![tactic(auto)]

ghost use Rattle.std.specs.Prelude.{◌≡◌};

pub mod law;
pub mod query;
mod reply;
pub mod rows;
