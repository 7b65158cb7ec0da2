//! The arguments of the reading of the change log, and what its reply holds.
#![tactic(auto)]

pub mod readings;
pub mod replies;
