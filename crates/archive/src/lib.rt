//! Bytes that stand in a file and not in memory: they are seen as the bytes themselves.
#![tactic(auto)]

mod archive;
mod extent;
mod shape;
mod shared;
mod unread;

pub use archive::Archive;
pub use extent::Extent;
pub use shared::extents_are_shared;
pub use unread::Unread;
