//! The grammar of the query language, and the readers of its smaller rules: single tokens, names, constants and tests.
//!
//! `specs/Grammar.antt` has the grammar, rule by rule in EBNF, from tokens up to the whole query; `specs/Reads.antt` says what a reader answers.
//! The readers of conditions, of what is shown, of the order and of whole queries stand on these in `ql_parse`.
#![tactic(auto)]

mod literals;
pub mod names;
pub mod parts;
mod plain;
pub mod reader;
pub mod stop;
pub mod tests;
