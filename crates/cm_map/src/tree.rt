//! The entries of a map that stand in blocks.
ghost use Rattle.std.specs.Prelude.{◌≡◌, ◌++◌, List, [], ◌∷◌, map, length, T, IfOk, IfSome, option_map, option_copied};
ghost use Rattle.std.specs.Arc.{arc_value};
ghost use Rattle.core.specs.List.{AllByRecursion, flat_map};
ghost use Rattle.core.specs.FinMap.Entries.{find, is_sorted, where_key};
ghost use Rattle.cm_map.specs.Parts.{pointee, within};
ghost use Rattle.cm_map.specs.Rows.{Spaced, change};
ghost use Rattle.cm_map.specs.Blocks.{leaf_entries, IsLeaf, limb_entries, group_count, IsLimb};
ghost use Rattle.cm_map.specs.Maps.{IsTree};

use crate::blocks::{Branch, Leaf, Limb, Middle};
use crate::key::Key;
use crate::levels::{group_of, shared};
use crate::row::{joined, row_changed, row_found, row_ranged};
use std::alloc::{AllocError, Global};
use std::marker::Model;
use std::sync::Arc;

/// Entries in the order of their keys, in five levels of blocks: leaves, blocks of leaves, blocks of these, blocks of those, and the top row.
#[derive(Drop)]
pub struct Tree<K: Key, V: Drop> {
    blocks: Vec<Arc<Limb<K, V>>>,
}

impl<K: Key, V: Drop> Model for Tree<K, V> {
    ghost Value = { List (K × V) };

    ghost view = { λ t. flat_map limb_entries (map arc_value t.blocks.items) };

    ghost invariant = { λ t. IsTree K.cmp (map arc_value t.blocks.items) };
}

// A row of one member.
fn alone<B: Drop>(alloc: Global, member: Arc<B>) -> Result<Vec<Arc<B>>, AllocError>
    ensures { IfOk result (λ v. v.items ≡ member ∷ []) }
{
    let mut row = Vec::with_capacity(alloc, 1)?;
    row.push(member)?;
    Ok(row)
}

/// A leaf with one entry.
pub fn leaf_of<K: Key, V: Drop>(
    alloc: Global,
    entry: Arc<(K, V)>,
) -> Result<Arc<Leaf<K, V>>, AllocError>
    ensures entries { IfOk result (λ l. leaf_entries (arc_value l) ≡ arc_value entry ∷ []) }
    ensures whole { IfOk result (λ l. IsLeaf (arc_value l)) }
{
    let entries = alone(alloc, entry)?;
    let leaf = Arc::new(alloc, Leaf { entries })?;
    Ok(leaf)
}

// The top blocks over one leaf.
fn over<K: Key, V: Drop>(
    alloc: Global,
    leaf: Arc<Leaf<K, V>>,
) -> Result<Vec<Arc<Limb<K, V>>>, AllocError>
    requires { IsLeaf (arc_value leaf) }
    ensures entries { IfOk result (λ v. flat_map limb_entries (map arc_value v.items)
        ≡ leaf_entries (arc_value leaf)) }
    ensures whole { IfOk result (λ v. AllByRecursion IsLimb (map arc_value v.items)) }
    ensures spaced { IfOk result (λ v. Spaced (map group_count (map arc_value v.items))) }
{
    let leaves = alone(alloc, leaf)?;
    let middle = group_of::<K, V, Leaf<K, V>>(alloc, leaves)?;
    let middles = alone(alloc, middle)?;
    let branch = group_of::<K, V, Middle<K, V>>(alloc, middles)?;
    let branches = alone(alloc, branch)?;
    let limb = group_of::<K, V, Branch<K, V>>(alloc, branches)?;
    let row = alone(alloc, limb)?;
    Ok(row)
}

// The top blocks with a new entry in place of the key's, or with none.
fn blocks_changed<K: Key, V: Drop>(
    alloc: Global,
    xs: &[Arc<Limb<K, V>>],
    key: &K,
    new: Option<Arc<(K, V)>>,
) -> Result<Vec<Arc<Limb<K, V>>>, AllocError>
    requires whole { AllByRecursion IsLimb (map arc_value xs.now) }
    requires spaced { Spaced (map group_count (map arc_value xs.now)) }
    requires sorted { T (is_sorted K.cmp (flat_map limb_entries (map arc_value xs.now))) }
    requires at_key { IfSome new (λ e. (arc_value e).0 ≡ key.now) }
    ensures entries { IfOk result (λ v. flat_map limb_entries (map arc_value v.items)
        ≡ change K.cmp key.now (option_map arc_value new) (flat_map limb_entries (map arc_value xs.now))) }
    ensures whole { IfOk result (λ v. AllByRecursion IsLimb (map arc_value v.items)) }
    ensures spaced { IfOk result (λ v. Spaced (map group_count (map arc_value v.items))) }
{
    if xs.is_empty() {
        match new {
            Some(entry) => {
                let leaf = leaf_of(alloc, entry)?;
                let blocks = over(alloc, leaf)?;
                return Ok(blocks);
            }
            None => {
                return Ok(Vec::new(alloc));
            }
        }
    }
    let blocks = row_changed::<K, V, Limb<K, V>>(alloc, xs, key, new)?;
    Ok(blocks)
}

impl<K: Key, V: Drop> Tree<K, V> {
    /// The entries of one leaf.
    pub fn of_leaf(alloc: Global, leaf: Arc<Leaf<K, V>>) -> Result<Tree<K, V>, AllocError>
        requires whole { IsLeaf (arc_value leaf) }
        requires sorted { T (is_sorted K.cmp (leaf_entries (arc_value leaf))) }
        ensures { IfOk result (λ t. t ≡ leaf_entries (arc_value leaf)) }
    {
        let blocks = over(alloc, leaf)?;
        Ok(Tree { blocks })
    }

    /// These entries, and those of a leaf behind them.
    pub fn with_leaf(&self, alloc: Global, leaf: Arc<Leaf<K, V>>) -> Result<Tree<K, V>, AllocError>
        requires whole { IsLeaf (arc_value leaf) }
        requires sorted { T (is_sorted K.cmp (self.now ++ leaf_entries (arc_value leaf))) }
        ensures { IfOk result (λ t. t ≡ self.now ++ leaf_entries (arc_value leaf)) }
    {
        let left = shared(alloc, &self.blocks)?;
        let right = over(alloc, leaf)?;
        let blocks = joined::<K, V, Limb<K, V>>(alloc, left, &right)?;
        Ok(Tree { blocks })
    }

    /// The value at the key, or none.
    pub fn get(&self, key: &K) -> Option<&V>
        ensures { option_copied result ≡ find K.cmp key.now self.now }
    {
        row_found::<K, V, Limb<K, V>>(&self.blocks, key)
    }

    /// The entries with a new one in place of the key's, or with none.
    pub fn changed(
        &self,
        alloc: Global,
        key: &K,
        new: Option<Arc<(K, V)>>,
    ) -> Result<Tree<K, V>, AllocError>
        requires at_key { IfSome new (λ e. (arc_value e).0 ≡ key.now) }
        ensures { IfOk result (λ t. t ≡ change K.cmp key.now (option_map arc_value new) self.now) }
    {
        let blocks = blocks_changed(alloc, &self.blocks, key, new)?;
        Ok(Tree { blocks })
    }

    /// The entries from `least` to `most`, at the end of `out`.
    pub fn ranged<'a>(
        &'a self,
        out: &mut Vec<&'a (K, V)>,
        least: &K,
        most: &K,
    ) -> Result<(), AllocError>
        ensures { IfOk result (λ _. map pointee out.new.items ≡ map pointee out.old.items
            ++ where_key K.cmp (within K.cmp least.now most.now) self.now) }
    {
        row_ranged::<K, V, Limb<K, V>>(out, &self.blocks, least, most)?;
        Ok(())
    }

    /// The top blocks. Each has 1 to `FULL` blocks, each of these as many, each of these as many leaves, and each leaf as many entries; two
    /// neighbours in a row have together more than `FEW` members.
    pub fn blocks(&self) -> &[Arc<Limb<K, V>>]
        ensures entries { flat_map limb_entries (map arc_value result.now) ≡ self.now }
        ensures bounded { AllByRecursion IsLimb (map arc_value result.now) }
        ensures spaced { Spaced (map group_count (map arc_value result.now)) }
    {
        &self.blocks
    }
}
