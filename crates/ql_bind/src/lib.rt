//! Queries bound to the types: what the names of a parsed query stand for, or the first cause that refuses it.
#![tactic(auto)]

ghost use Rattle.std.specs.Prelude.{◌≡◌};

pub mod bind;
pub mod bound;
mod column;
mod condition;
mod literal;
mod moment;
mod number;
mod pattern;
mod select;
pub mod table;
