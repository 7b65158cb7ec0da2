//! The arguments of a query, and what its reply holds.
#![tactic(auto)]

pub mod readings;
pub mod replies;
