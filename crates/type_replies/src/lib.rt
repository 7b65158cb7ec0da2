//! Replies on types and on the repository as JSON.
#![tactic(auto)]

ghost use Rattle.std.specs.Prelude.{◌≡◌};

pub mod info;
mod put;
pub mod tree;
pub mod types;
