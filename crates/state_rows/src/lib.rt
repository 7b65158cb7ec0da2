//! A state as a store of rows: what queries read of a repository.
#![tactic(auto)]

ghost use Rattle.std.specs.Prelude.{◌≡◌};

mod filed;
mod folders;
mod kinds;
mod rising;
mod row;
pub mod store;
mod values;
mod walk;
