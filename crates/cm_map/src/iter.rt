//! A map's entries one after another.
ghost use Rattle.std.specs.Prelude.{◌≡◌, ℕ, ◌+◌, ◌<◌, ◌⊎◌, ◌++◌, [], map, length};
ghost use Rattle.std.specs.Iterator.{YieldsFirstRef, item_count};
ghost use Rattle.cm_map.specs.Rests.{rest};

use crate::blocks::{Branch, Leaf, Limb, Middle};
use crate::key::Key;
use std::sync::Arc;

/// An iterator over a map's entries in the order of their keys.
///
/// It takes no memory, and keeps what is left of one block of each level and of the map.
#[derive(Drop)]
pub struct Iter<'a, K: Key, V: Drop> {
    /// What is left of the leaf at hand.
    pub entries: &'a [Arc<(K, V)>],
    /// The leaves after it in their block.
    pub leaves: &'a [Arc<Leaf<K, V>>],
    /// The blocks of leaves after that one in theirs.
    pub middles: &'a [Arc<Middle<K, V>>],
    /// The blocks of these after that one in theirs.
    pub branches: &'a [Arc<Branch<K, V>>],
    /// The top blocks after that one.
    pub blocks: &'a [Arc<Limb<K, V>>],
    /// The entries behind all blocks.
    pub tail: &'a [Arc<(K, V)>],
}

// The same entries, with the next one in the leaf at hand.
fn filled<'a, K: Key, V: Drop>(it: Iter<'a, K, V>) -> Iter<'a, K, V>
    ensures same { rest result ≡ rest it.entry }
    ensures ready { 0 < length result.entries.now ⊎ rest result ≡ [] }
{
    let mut entries = it.entries;
    let mut leaves = it.leaves;
    let mut middles = it.middles;
    let mut branches = it.branches;
    let mut blocks = it.blocks;
    let mut tail = it.tail;
    while entries.is_empty() {
        if let Some((leaf, others)) = leaves.split_first() {
            let leaf: &'a Leaf<K, V> = leaf;
            entries = &leaf.entries;
            leaves = others;
        } else if let Some((middle, others)) = middles.split_first() {
            let middle: &'a Middle<K, V> = middle;
            leaves = &middle.members;
            middles = others;
        } else if let Some((branch, others)) = branches.split_first() {
            let branch: &'a Branch<K, V> = branch;
            middles = &branch.members;
            branches = others;
        } else if let Some((block, others)) = blocks.split_first() {
            let block: &'a Limb<K, V> = block;
            branches = &block.members;
            blocks = others;
        } else if !tail.is_empty() {
            entries = tail;
            tail = &[];
        } else {
            break;
        }
    }
    Iter {
        entries,
        leaves,
        middles,
        branches,
        blocks,
        tail,
    }
}

impl<'a, K: Key, V: Drop> Iterator for Iter<'a, K, V> {
    type Item = &'a (K, V);

    ghost next_gives = { YieldsFirstRef rest };

    ghost remaining = { item_count rest };

    fn next(&mut self) -> Option<&'a (K, V)> {
        let it = filled(Iter {
            entries: self.entries,
            leaves: self.leaves,
            middles: self.middles,
            branches: self.branches,
            blocks: self.blocks,
            tail: self.tail,
        });
        self.entries = it.entries;
        self.leaves = it.leaves;
        self.middles = it.middles;
        self.branches = it.branches;
        self.blocks = it.blocks;
        self.tail = it.tail;
        let (first, others) = it.entries.split_first()?;
        self.entries = others;
        let entry: &'a (K, V) = first;
        Some(entry)
    }
}
