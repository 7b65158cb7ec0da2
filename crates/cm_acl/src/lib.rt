//! Access control lists: levels and changes.
#![tactic(auto)]

pub mod change;
pub mod level;
