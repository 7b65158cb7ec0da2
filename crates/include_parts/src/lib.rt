//! What is shown of an object where it is asked for, the arguments of the readings that show it, and what their replies hold.
#![tactic(auto)]

pub mod readings;
pub mod replies;
