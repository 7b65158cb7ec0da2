//! What a block becomes by a change.
use std::sync::Arc;

/// No block, one, or two.
#[derive(Drop)]
pub enum Pieces<B: Drop> {
    /// The block lost its last member.
    Gone,
    /// The block with a member more or less, or another one.
    One(Arc<B>),
    /// The block had too many members.
    Two(Arc<B>, Arc<B>),
}
