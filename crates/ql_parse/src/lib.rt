//! The parser of the query language.
#![tactic(auto)]

mod condition;
mod order;
pub mod parse;
mod query;
mod select;
