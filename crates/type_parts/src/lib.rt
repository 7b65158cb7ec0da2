//! The arguments of the readings of types and of the repository's information, and what their replies hold.
#![tactic(auto)]

pub mod readings;
pub mod replies;
