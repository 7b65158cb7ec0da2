//! What comes in.
use crate::head::{Head, Request};

/// What a session reads next.
#[derive(Drop)]
pub enum Incoming {
    /// The head of a request that expects the interim reply. Its body is still to be read.
    Head(Head),
    /// A whole request.
    Body(Request),
    /// The input has ended where a request would begin.
    Over,
}
