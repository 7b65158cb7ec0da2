//! The calls that change the repository, all together, as bytes: one byte that says which it is, and then its fields.
#![tactic(auto)]

mod fields;
pub mod form;
pub mod writes;
