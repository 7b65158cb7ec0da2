//! What threads may share.
use crate::content::{Content, Rendition, Stream};
use crate::pieces::Pieces;

// Asks that threads may share a type.
fn is_shared<T: Send + Sync>() {}

/// Threads may share streams, wherever their bytes are.
pub fn streams_are_shared() {
    is_shared::<Pieces>();
    is_shared::<Stream>();
    is_shared::<Content>();
    is_shared::<Rendition>();
}
