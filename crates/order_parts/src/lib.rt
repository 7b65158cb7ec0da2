//! The order that the objects of a list are asked for.
#![tactic(auto)]

pub mod readings;
