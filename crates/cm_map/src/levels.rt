//! Leaves, and blocks of blocks, as blocks of rows.
ghost use Rattle.std.specs.Prelude.{◌≡◌, ◌+◌, ◌≤◌, ◌++◌, map, length, T, IfOk, IfSome, option_map, option_copied};
ghost use Rattle.std.specs.Arc.{arc_value};
ghost use Rattle.core.specs.List.{AllByRecursion, flat_map};
ghost use Rattle.core.specs.FinMap.Entries.{find, is_sorted, where_key};
ghost use Rattle.cm_map.specs.Parts.{pointee, within};
ghost use Rattle.cm_map.specs.Pieces.{blocks_of};
ghost use Rattle.cm_map.specs.Rows.{Spaced, change};
ghost use Rattle.cm_map.specs.Sizes.{full};
ghost use Rattle.cm_map.specs.Blocks.{leaf_entries, leaf_count, leaf_first, IsLeaf, group_entries, group_count, group_first, IsGroup};

use crate::block::Block;
use crate::blocks::{Group, Leaf};
use crate::key::{Headed, Key};
use crate::leaf::{find_in, gap, range_in};
use crate::pieces::Pieces;
use crate::places::cut;
use crate::row::{joined, row_changed, row_found, row_ranged};
use crate::rows::{push_all, spliced};
use crate::sizes::FULL;
use std::alloc::{AllocError, Global};
use std::sync::Arc;

// The entries with a new one in place of the key's, or with none.
fn change_in<K: Key, V: Drop>(
    alloc: Global,
    xs: &[Arc<(K, V)>],
    key: &K,
    new: Option<Arc<(K, V)>>,
) -> Result<Vec<Arc<(K, V)>>, AllocError>
    requires sorted { T (is_sorted K.cmp (map arc_value xs.now)) }
    requires at_key { IfSome new (λ e. (arc_value e).0 ≡ key.now) }
    ensures { IfOk result (λ v. map arc_value v.items
        ≡ change K.cmp key.now (option_map arc_value new) (map arc_value xs.now)) }
{
    let (from, to) = gap(xs, key);
    match new {
        Some(entry) => {
            let one = [entry];
            let v = spliced(alloc, xs, from, to, &one)?;
            Ok(v)
        }
        None => {
            let none: Vec<Arc<(K, V)>> = Vec::new(alloc);
            let v = spliced(alloc, xs, from, to, &none)?;
            Ok(v)
        }
    }
}

/// The members of a row, shared.
pub fn shared<B: Drop>(alloc: Global, xs: &[Arc<B>]) -> Result<Vec<Arc<B>>, AllocError>
    ensures items { IfOk result (λ v. map arc_value v.items ≡ map arc_value xs.now) }
    ensures len { IfOk result (λ v. length v.items ≡ length xs.now) }
{
    let mut out = Vec::with_capacity(alloc, xs.len())?;
    push_all(&mut out, xs)?;
    Ok(out)
}

// A list in two parts.
fn halves<B: Drop>(
    alloc: Global,
    xs: &[Arc<B>],
    at: usize,
) -> Result<(Vec<Arc<B>>, Vec<Arc<B>>), AllocError>
    requires { at ≤ length xs.now }
    ensures items { IfOk result (λ p. map arc_value p.0.items ++ map arc_value p.1.items ≡ map arc_value xs.now) }
    ensures low { IfOk result (λ p. length p.0.items ≡ at) }
    ensures high { IfOk result (λ p. length p.1.items + at ≡ length xs.now) }
{
    let low = shared(alloc, &xs[..at])?;
    let high = shared(alloc, &xs[at..])?;
    Ok((low, high))
}

/// One block of blocks.
pub fn group_of<K: Key, V: Drop, B: Block<K, V>>(
    alloc: Global,
    members: Vec<Arc<B>>,
) -> Result<Arc<Group<B>>, AllocError>
    requires some { 1 ≤ length members.items }
    requires few { length members.items ≤ full }
    requires whole { AllByRecursion B.whole (map arc_value members.items) }
    requires spaced { Spaced (map B.count (map arc_value members.items)) }
    ensures entries { IfOk result (λ g. group_entries B.entries (arc_value g)
        ≡ flat_map B.entries (map arc_value members.items)) }
    ensures whole { IfOk result (λ g. IsGroup B.whole B.count (arc_value g)) }
    ensures count { IfOk result (λ g. group_count (arc_value g) ≡ length members.items) }
{
    let group = Arc::new(alloc, Group { members })?;
    Ok(group)
}

/// The entries as one or two leaves, or none: `FULL` + 1 entries are split in two at `cut`.
pub fn leaf_pieces<K: Key, V: Drop>(
    alloc: Global,
    entries: Vec<Arc<(K, V)>>,
    cut: usize,
) -> Result<Pieces<Leaf<K, V>>, AllocError>
    requires few { length entries.items ≤ full + 1 }
    requires least { 1 ≤ cut }
    requires most { cut ≤ full }
    ensures entries { IfOk result (λ p. flat_map leaf_entries (blocks_of p) ≡ map arc_value entries.items) }
    ensures whole { IfOk result (λ p. AllByRecursion IsLeaf (blocks_of p)) }
    ensures spaced { IfOk result (λ p. Spaced (map leaf_count (blocks_of p))) }
{
    if entries.is_empty() {
        return Ok(Pieces::Gone);
    }
    if entries.len() <= FULL {
        let leaf = Arc::new(alloc, Leaf { entries })?;
        return Ok(Pieces::One(leaf));
    }
    let (low, high) = halves(alloc, &entries, cut)?;
    let first = Arc::new(alloc, Leaf { entries: low })?;
    let second = Arc::new(alloc, Leaf { entries: high })?;
    Ok(Pieces::Two(first, second))
}

/// The blocks as one or two blocks of them, or none: `FULL` + 1 are split in two at `cut`.
pub fn group_pieces<K: Key, V: Drop, B: Block<K, V>>(
    alloc: Global,
    members: Vec<Arc<B>>,
    cut: usize,
) -> Result<Pieces<Group<B>>, AllocError>
    requires few { length members.items ≤ full + 1 }
    requires least { 1 ≤ cut }
    requires most { cut ≤ full }
    requires whole { AllByRecursion B.whole (map arc_value members.items) }
    requires spaced { Spaced (map B.count (map arc_value members.items)) }
    ensures entries { IfOk result (λ p. flat_map (group_entries B.entries) (blocks_of p)
        ≡ flat_map B.entries (map arc_value members.items)) }
    ensures whole { IfOk result (λ p. AllByRecursion (IsGroup B.whole B.count) (blocks_of p)) }
    ensures spaced { IfOk result (λ p. Spaced (map group_count (blocks_of p))) }
{
    if members.is_empty() {
        return Ok(Pieces::Gone);
    }
    if members.len() <= FULL {
        let group = group_of::<K, V, B>(alloc, members)?;
        return Ok(Pieces::One(group));
    }
    let (low, high) = halves(alloc, &members, cut)?;
    let first = group_of::<K, V, B>(alloc, low)?;
    let second = group_of::<K, V, B>(alloc, high)?;
    Ok(Pieces::Two(first, second))
}

impl<K: Key, V: Drop> Headed<K> for Leaf<K, V> {
    ghost first = { leaf_first };

    fn head(&self) -> &K {
        let entry: &Arc<(K, V)> = &self.entries[0];
        &entry.0
    }
}

impl<K: Key, V: Drop> Block<K, V> for Leaf<K, V> {
    ghost entries = { leaf_entries };

    ghost count = { leaf_count };

    ghost whole = { IsLeaf };

    fn size(&self) -> usize {
        self.entries.len()
    }

    fn join(&self, other: &Self, alloc: Global) -> Result<Arc<Self>, AllocError> {
        let mut entries = shared(alloc, &self.entries)?;
        push_all(&mut entries, &other.entries)?;
        let leaf = Arc::new(alloc, Leaf { entries })?;
        Ok(leaf)
    }

    fn changed(
        &self,
        alloc: Global,
        key: &K,
        new: Option<Arc<(K, V)>>,
    ) -> Result<Pieces<Self>, AllocError>
        requires whole { IsLeaf self.now }
        requires sorted { T (is_sorted K.cmp (leaf_entries self.now)) }
        requires at_key { IfSome new (λ e. (arc_value e).0 ≡ key.now) }
        ensures entries { IfOk result (λ p. flat_map leaf_entries (blocks_of p)
            ≡ change K.cmp key.now (option_map arc_value new) (leaf_entries self.now)) }
        ensures whole { IfOk result (λ p. AllByRecursion IsLeaf (blocks_of p)) }
        ensures spaced { IfOk result (λ p. Spaced (map leaf_count (blocks_of p))) }
    {
        let cut = cut::<K, (K, V)>(&self.entries, key);
        let entries = change_in(alloc, &self.entries, key, new)?;
        let pieces = leaf_pieces(alloc, entries, cut)?;
        Ok(pieces)
    }

    fn found(&self, key: &K) -> Option<&V>
        requires whole { IsLeaf self.now }
        requires sorted { T (is_sorted K.cmp (leaf_entries self.now)) }
        ensures { option_copied result ≡ find K.cmp key.now (leaf_entries self.now) }
    {
        find_in(&self.entries, key)
    }

    fn ranged<'a>(
        &'a self,
        out: &mut Vec<&'a (K, V)>,
        least: &K,
        most: &K,
    ) -> Result<(), AllocError>
        requires whole { IsLeaf self.now }
        requires sorted { T (is_sorted K.cmp (leaf_entries self.now)) }
        ensures { IfOk result (λ _. map pointee out.new.items
            ≡ map pointee out.old.items ++ where_key K.cmp (within K.cmp least.now most.now) (leaf_entries self.now)) }
    {
        range_in(out, &self.entries, least, most)?;
        Ok(())
    }

    ghost use Rattle.cm_map.specs.LeafFacts.{leaf_heads};

    ghost heads = { leaf_heads };
}

impl<K, B: Headed<K>> Headed<K> for Group<B> {
    ghost first = { group_first B.first };

    fn head(&self) -> &K {
        let member: &Arc<B> = &self.members[0];
        member.head()
    }
}

impl<K: Key, V: Drop, B: Block<K, V>> Block<K, V> for Group<B> {
    ghost entries = { group_entries B.entries };

    ghost count = { group_count };

    ghost whole = { IsGroup B.whole B.count };

    fn size(&self) -> usize {
        self.members.len()
    }

    fn join(&self, other: &Self, alloc: Global) -> Result<Arc<Self>, AllocError> {
        let low = shared(alloc, &self.members)?;
        let members = joined::<K, V, B>(alloc, low, &other.members)?;
        let group = Arc::new(alloc, Group { members })?;
        Ok(group)
    }

    fn changed(
        &self,
        alloc: Global,
        key: &K,
        new: Option<Arc<(K, V)>>,
    ) -> Result<Pieces<Self>, AllocError>
        requires whole { IsGroup B.whole B.count self.now }
        requires sorted { T (is_sorted K.cmp (group_entries B.entries self.now)) }
        requires at_key { IfSome new (λ e. (arc_value e).0 ≡ key.now) }
        ensures entries { IfOk result (λ p. flat_map (group_entries B.entries) (blocks_of p)
            ≡ change K.cmp key.now (option_map arc_value new) (group_entries B.entries self.now)) }
        ensures whole { IfOk result (λ p. AllByRecursion (IsGroup B.whole B.count) (blocks_of p)) }
        ensures spaced { IfOk result (λ p. Spaced (map group_count (blocks_of p))) }
    {
        let cut = cut::<K, B>(&self.members, key);
        let members = row_changed::<K, V, B>(alloc, &self.members, key, new)?;
        let pieces = group_pieces::<K, V, B>(alloc, members, cut)?;
        Ok(pieces)
    }

    fn found(&self, key: &K) -> Option<&V>
        requires whole { IsGroup B.whole B.count self.now }
        requires sorted { T (is_sorted K.cmp (group_entries B.entries self.now)) }
        ensures { option_copied result ≡ find K.cmp key.now (group_entries B.entries self.now) }
    {
        row_found::<K, V, B>(&self.members, key)
    }

    fn ranged<'a>(
        &'a self,
        out: &mut Vec<&'a (K, V)>,
        least: &K,
        most: &K,
    ) -> Result<(), AllocError>
        requires whole { IsGroup B.whole B.count self.now }
        requires sorted { T (is_sorted K.cmp (group_entries B.entries self.now)) }
        ensures { IfOk result (λ _. map pointee out.new.items
            ≡ map pointee out.old.items ++ where_key K.cmp (within K.cmp least.now most.now)
            (group_entries B.entries self.now)) }
    {
        row_ranged::<K, V, B>(out, &self.members, least, most)?;
        Ok(())
    }

    ghost use Rattle.cm_map.specs.LeafFacts.{group_heads};

    ghost heads = { group_heads B.first B.entries B.whole B.count B.heads };
}
