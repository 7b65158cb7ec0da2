//! Replies to bytes: heads from a fixed array, without taking memory, and bodies as they are.
#![tactic(auto)]

mod extent;
mod head;
mod pieces;
mod reply;
mod sending;
mod shown;

pub use reply::write_reply;
pub use sending::{send, send_interim, send_memory};
pub use shown::{cause_shown, fault_cause, without_body};
