//! What a request asks.

/// What a request asks: a write, or a question, with all its arguments.
#[derive(Drop)]
pub enum Asked<C, Q> {
    Write(C),
    Question(Q),
}
