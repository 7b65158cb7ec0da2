//! What threads may share.
use crate::archive::Archive;
use crate::extent::Extent;

// Asks that threads may share a type.
fn is_shared<T: Send + Sync>() {}

/// Threads may share archives and extents.
pub fn extents_are_shared() {
    is_shared::<Archive>();
    is_shared::<Extent>();
}
