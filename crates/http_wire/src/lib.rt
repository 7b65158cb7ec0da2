//! Requests from bytes, for any cutting of the input, and replies to bytes.
#![tactic(auto)]

mod body;
mod chunks;
mod fault;
mod fields;
mod head;
mod head_reader;
mod heads;
mod incoming;
mod pace;
mod piece;
mod pieces;
mod reader;
mod reading;
mod window;

pub use fault::WireStop;
pub use head::{Head, Named, Request};
pub use incoming::Incoming;
pub use reader::{Buffer, read_request};
