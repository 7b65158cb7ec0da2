//! The calls of the repository as values: one variant a call. Their arguments and what replies hold are records of `call_parts`.
#![tactic(auto)]

pub mod question;
pub mod reply;
pub mod write;
