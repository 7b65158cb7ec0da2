//! What a run over a journal ends with that is damaged, another's, or not kept: its statuses, and the lines that the program writes of it.
#![tactic(auto)]

mod sending;
mod status;
mod why;

pub use status::{tell_administrator, tell_damaged, tell_lacking, tell_unkept};
pub use why::{WhyUnkept, why_of};
