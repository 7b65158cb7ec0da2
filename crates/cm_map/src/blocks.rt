//! Leaves, and blocks of blocks.
use crate::key::Key;
use std::sync::Arc;

/// A block of entries in the order of their keys. In a map it has 1 to `FULL` of them.
#[derive(Drop)]
pub struct Leaf<K: Key, V: Drop> {
    /// The entries, shared with the maps that this one was made from.
    pub entries: Vec<Arc<(K, V)>>,
}

/// A block of blocks. In a map it has 1 to `FULL` of them.
#[derive(Drop)]
pub struct Group<B: Drop> {
    /// The blocks, shared with the maps that this one was made from.
    pub members: Vec<Arc<B>>,
}

/// A block of leaves.
pub type Middle<K, V> = Group<Leaf<K, V>>;

/// A block of blocks of leaves.
pub type Branch<K, V> = Group<Middle<K, V>>;

/// A block of blocks of blocks of leaves.
pub type Limb<K, V> = Group<Branch<K, V>>;
