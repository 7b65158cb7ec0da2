//! Rows of blocks.
ghost use Rattle.std.specs.Prelude.{◌≡◌, ◌+◌, ◌<◌, ◌≤◌, ◌++◌, map, length, take, drop, T, IfOk, IfSome, option_map, option_copied};
ghost use Rattle.std.specs.Arc.{arc_value};
ghost use Rattle.core.specs.List.{AllByRecursion, flat_map};
ghost use Rattle.core.specs.FinMap.Entries.{find, is_sorted, where_key};
ghost use Rattle.cm_map.specs.Parts.{pointee, within};
ghost use Rattle.cm_map.specs.Pieces.{blocks_of};
ghost use Rattle.cm_map.specs.Rows.{Spaced, change};

use crate::block::Block;
use crate::key::Key;
use crate::pieces::Pieces;
use crate::places::{between, place};
use crate::rows::push_all;
use crate::sizes::FEW;
use std::alloc::{AllocError, Global};
use std::sync::Arc;

/// Two rows in one. Where they meet, two small blocks become one.
pub fn joined<K: Key, V: Drop, B: Block<K, V>>(
    alloc: Global,
    left: Vec<Arc<B>>,
    right: &[Arc<B>],
) -> Result<Vec<Arc<B>>, AllocError>
    requires left_whole { AllByRecursion B.whole (map arc_value left.items) }
    requires right_whole { AllByRecursion B.whole (map arc_value right.now) }
    requires left_spaced { Spaced (map B.count (map arc_value left.items)) }
    requires right_spaced { Spaced (map B.count (map arc_value right.now)) }
    ensures entries { IfOk result (λ v. flat_map B.entries (map arc_value v.items)
        ≡ flat_map B.entries (map arc_value left.items) ++ flat_map B.entries (map arc_value right.now)) }
    ensures whole { IfOk result (λ v. AllByRecursion B.whole (map arc_value v.items)) }
    ensures spaced { IfOk result (λ v. Spaced (map B.count (map arc_value v.items))) }
    ensures most { IfOk result (λ v. length v.items ≤ length left.items + length right.now) }
    ensures least { IfOk result (λ v. length left.items + length right.now ≤ length v.items + 1) }
{
    let mut out = left;
    if right.is_empty() {
        return Ok(out);
    }
    let second: &Arc<B> = &right[0];
    match out.pop() {
        None => {
            push_all(&mut out, right)?;
            Ok(out)
        }
        Some(first) => {
            if first.size() + second.size() > FEW {
                out.push(first)?;
                push_all(&mut out, right)?;
                Ok(out)
            } else {
                let both = first.join(second, alloc)?;
                out.push(both)?;
                push_all(&mut out, &right[1..])?;
                Ok(out)
            }
        }
    }
}

/// The row with what a block became at its end.
pub fn put_pieces<K: Key, V: Drop, B: Block<K, V>>(
    alloc: Global,
    row: Vec<Arc<B>>,
    pieces: Pieces<B>,
) -> Result<Vec<Arc<B>>, AllocError>
    requires whole { AllByRecursion B.whole (map arc_value row.items) }
    requires spaced { Spaced (map B.count (map arc_value row.items)) }
    requires pieces_whole { AllByRecursion B.whole (blocks_of pieces) }
    requires pieces_spaced { Spaced (map B.count (blocks_of pieces)) }
    ensures entries { IfOk result (λ v. flat_map B.entries (map arc_value v.items) ≡
        flat_map B.entries (map arc_value row.items) ++ flat_map B.entries (blocks_of pieces)) }
    ensures whole { IfOk result (λ v. AllByRecursion B.whole (map arc_value v.items)) }
    ensures spaced { IfOk result (λ v. Spaced (map B.count (map arc_value v.items))) }
    ensures most { IfOk result (λ v. length v.items ≤ length row.items + 2) }
{
    match pieces {
        Pieces::Gone => Ok(row),
        Pieces::One(block) => {
            let one = [block];
            let out = joined::<K, V, B>(alloc, row, &one)?;
            Ok(out)
        }
        Pieces::Two(first, second) => {
            let two = [first, second];
            let out = joined::<K, V, B>(alloc, row, &two)?;
            Ok(out)
        }
    }
}

/// The row with `pieces` in place of the block at `i`.
pub fn replaced<K: Key, V: Drop, B: Block<K, V>>(
    alloc: Global,
    xs: &[Arc<B>],
    i: usize,
    pieces: Pieces<B>,
) -> Result<Vec<Arc<B>>, AllocError>
    requires in_range { i < length xs.now }
    requires whole { AllByRecursion B.whole (map arc_value xs.now) }
    requires spaced { Spaced (map B.count (map arc_value xs.now)) }
    requires pieces_whole { AllByRecursion B.whole (blocks_of pieces) }
    requires pieces_spaced { Spaced (map B.count (blocks_of pieces)) }
    ensures entries { IfOk result (λ v. flat_map B.entries (map arc_value v.items)
        ≡ flat_map B.entries (take i (map arc_value xs.now))
        ++ (flat_map B.entries (blocks_of pieces) ++ flat_map B.entries (drop (i + 1) (map arc_value xs.now)))) }
    ensures whole { IfOk result (λ v. AllByRecursion B.whole (map arc_value v.items)) }
    ensures spaced { IfOk result (λ v. Spaced (map B.count (map arc_value v.items))) }
    ensures most { IfOk result (λ v. length v.items ≤ length xs.now + 1) }
{
    let mut before = Vec::with_capacity(alloc, xs.len().saturating_add(1))?;
    push_all(&mut before, &xs[..i])?;
    let left = put_pieces::<K, V, B>(alloc, before, pieces)?;
    let row = joined::<K, V, B>(alloc, left, &xs[i + 1..])?;
    Ok(row)
}

/// The row with another entry at the key, or none.
pub fn row_changed<K: Key, V: Drop, B: Block<K, V>>(
    alloc: Global,
    xs: &[Arc<B>],
    key: &K,
    new: Option<Arc<(K, V)>>,
) -> Result<Vec<Arc<B>>, AllocError>
    requires some { 0 < length xs.now }
    requires whole { AllByRecursion B.whole (map arc_value xs.now) }
    requires spaced { Spaced (map B.count (map arc_value xs.now)) }
    requires sorted { T (is_sorted K.cmp (flat_map B.entries (map arc_value xs.now))) }
    requires at_key { IfSome new (λ e. (arc_value e).0 ≡ key.now) }
    ensures entries { IfOk result (λ v. flat_map B.entries (map arc_value v.items)
        ≡ change K.cmp key.now (option_map arc_value new) (flat_map B.entries (map arc_value xs.now))) }
    ensures whole { IfOk result (λ v. AllByRecursion B.whole (map arc_value v.items)) }
    ensures spaced { IfOk result (λ v. Spaced (map B.count (map arc_value v.items))) }
    ensures few { IfOk result (λ v. length v.items ≤ length xs.now + 1) }
{
    let i = place::<K, B>(xs, key);
    let member: &Arc<B> = &xs[i];
    let pieces = member.changed(alloc, key, new)?;
    let row = replaced::<K, V, B>(alloc, xs, i, pieces)?;
    Ok(row)
}

/// The value at the key.
pub fn row_found<'a, K: Key, V: Drop, B: Block<K, V>>(xs: &'a [Arc<B>], key: &K) -> Option<&'a V>
    requires whole { AllByRecursion B.whole (map arc_value xs.now) }
    requires sorted { T (is_sorted K.cmp (flat_map B.entries (map arc_value xs.now))) }
    ensures { option_copied result ≡ find K.cmp key.now (flat_map B.entries (map arc_value xs.now)) }
{
    if xs.is_empty() {
        return None;
    }
    let i = place::<K, B>(xs, key);
    let member: &'a Arc<B> = &xs[i];
    let inner: &'a B = member;
    inner.found(key)
}

/// The entries from `least` to `most`, at the end of `out`.
///
/// Only blocks in which such keys can lie are looked at.
pub fn row_ranged<'a, K: Key, V: Drop, B: Block<K, V>>(
    out: &mut Vec<&'a (K, V)>,
    xs: &'a [Arc<B>],
    least: &K,
    most: &K,
) -> Result<(), AllocError>
    requires whole { AllByRecursion B.whole (map arc_value xs.now) }
    requires sorted { T (is_sorted K.cmp (flat_map B.entries (map arc_value xs.now))) }
    ensures { IfOk result (λ _. map pointee out.new.items
        ≡ map pointee out.old.items ++ where_key K.cmp (within K.cmp least.now most.now)
        (flat_map B.entries (map arc_value xs.now))) }
{
    if xs.is_empty() {
        return Ok(());
    }
    let near: &'a [Arc<B>] = between::<K, B>(xs, least, most);
    push_ranged::<K, V, B>(out, near, least, most)?;
    Ok(())
}

// The entries of each block from `least` to `most`.
fn push_ranged<'a, K: Key, V: Drop, B: Block<K, V>>(
    out: &mut Vec<&'a (K, V)>,
    xs: &'a [Arc<B>],
    least: &K,
    most: &K,
) -> Result<(), AllocError>
    requires whole { AllByRecursion B.whole (map arc_value xs.now) }
    requires sorted { T (is_sorted K.cmp (flat_map B.entries (map arc_value xs.now))) }
    ensures { IfOk result (λ _. map pointee out.new.items
        ≡ map pointee out.old.items ++ where_key K.cmp (within K.cmp least.now most.now)
        (flat_map B.entries (map arc_value xs.now))) }
{
    for x in xs {
        let inner: &'a B = x;
        inner.ranged(out, least, most)?;
    }
    Ok(())
}
