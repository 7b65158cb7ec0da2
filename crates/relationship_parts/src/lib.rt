//! The arguments of the reading of relationships. Its reply is a page of objects.
#![tactic(auto)]

pub mod readings;
