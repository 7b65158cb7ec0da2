//! The objects of a repository, with what is looked up among them without going through all.
#![tactic(auto)]

ghost use Rattle.std.specs.Prelude.{◌≡◌};

pub mod index;
pub mod index_key;
pub mod keys;
pub mod objects;
mod pairs;
