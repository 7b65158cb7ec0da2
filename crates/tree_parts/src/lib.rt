//! The arguments of the readings of trees of objects and of working copies.
#![tactic(auto)]

pub mod readings;
