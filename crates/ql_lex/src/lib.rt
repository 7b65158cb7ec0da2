//! The tokens of a query's text.
#![tactic(auto)]

mod lexeme;
pub mod token;
pub mod tokens;
pub mod word;
