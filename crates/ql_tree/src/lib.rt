//! The trees of queries, and their printed form.
#![tactic(auto)]

pub mod print;
mod printer;
pub mod tree;
