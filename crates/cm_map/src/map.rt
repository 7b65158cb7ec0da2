//! Finite maps that keep their older states.
ghost use Rattle.std.specs.Prelude.{◌≡◌, ◌↔◌, ℕ, ◌+◌, ◌*◌, ◌/◌, ◌≤◌, List, [], ◌∷◌, ◌++◌, None, Some, false, true, map, length, T, IsTrue, IsSome, IfOk, IfSome, option_map, option_copied};
ghost use Rattle.std.specs.Arc.{arc_value};
ghost use Rattle.core.specs.List.{AllByRecursion, flat_map};
ghost use Rattle.core.specs.Ordering.{is_lt};
ghost use Rattle.core.specs.declared.cmp.Ordering.TheVariants.{Less};
ghost use Rattle.core.specs.FinMap.Entries.{put, find, is_sorted, where_key};
ghost use Rattle.cm_map.specs.Parts.{without_key, pointee, within};
ghost use Rattle.cm_map.specs.Pieces.{blocks_of};
ghost use Rattle.cm_map.specs.Rows.{Spaced, change};
ghost use Rattle.cm_map.specs.Blocks.{leaf_entries, IsLeaf, limb_entries, group_count, IsLimb};
ghost use Rattle.cm_map.specs.Maps.{tree_entries, tail_entries, IsCut, IsWidth};
ghost use Rattle.cm_map.specs.Rests.{rest};

use crate::block::Block;
use crate::blocks::{Leaf, Limb};
use crate::iter::Iter;
use crate::key::{Headed, Key};
use crate::leaf::{find_in, range_in};
use crate::pieces::Pieces;
use crate::tree::{Tree, leaf_of};
use std::alloc::{AllocError, Global};
use std::marker::Model;
use std::sync::Arc;

/// A finite map, seen as the list of its entries in the order of their keys.
///
/// Each change takes `&self` and makes a new map that shares all other blocks with the old one, so both stand. Behind the blocks stands one leaf,
/// so that an entry behind all others takes a copy of this leaf alone.
/// `put`, `find` and `where_key` of the contracts are std's words for a list of entries in order.
#[derive(Drop)]
pub struct Map<K: Key, V: Drop> {
    body: Body<K, V>,
    len: u64,
}

/// The blocks of a map, and the leaf behind them.
pub struct Body<K: Key, V: Drop> {
    tree: Option<Arc<Tree<K, V>>>,
    tail: Option<Arc<Leaf<K, V>>>,
}

// That it goes is proved here once, and not at each place where a map goes.
impl<K: Key, V: Drop> Drop for Body<K, V> {
    fn drop(self) {
        let Body { tree: _, tail: _ } = self;
    }
}

impl<K: Key, V: Drop> Model for Map<K, V> {
    ghost use Rattle.std.specs.Prelude.{◌++◌, List, option_map};
    ghost use Rattle.std.specs.Arc.{arc_value};
    ghost use Rattle.cm_map.specs.Maps.{tree_entries, tail_entries, IsMap};

    ghost Value = { List (K × V) };

    ghost view = { λ m. tree_entries (option_map arc_value m.body.tree)
        ++ tail_entries (option_map arc_value m.body.tail) };

    ghost invariant = { λ m. IsMap K.cmp m.len (option_map arc_value m.body.tree) (option_map arc_value m.body.tail) };
}

// The same once more, by sharing.
fn again<B: Drop>(x: &Option<Arc<B>>) -> Result<Option<Arc<B>>, AllocError>
    ensures { IfOk result (λ o. option_map arc_value o ≡ option_map arc_value x.now) }
{
    match x {
        Some(held) => Ok(Some(Arc::try_clone(held)?)),
        None => Ok(None),
    }
}

// Whether a key stands in the leaf behind the blocks, or would.
fn is_behind<K: Key, V: Drop>(
    tree: &Option<Arc<Tree<K, V>>>,
    tail: &Option<Arc<Leaf<K, V>>>,
    key: &K,
) -> bool
    requires tail { IfSome (option_map arc_value tail.now) IsLeaf }
    requires sorted { T (is_sorted K.cmp (tree_entries (option_map arc_value tree.now)
        ++ tail_entries (option_map arc_value tail.now))) }
    ensures yes { result ≡ true → AllByRecursion (λ e. K.cmp e.0 key.now
        ≡ Less) (tree_entries (option_map arc_value tree.now)) }
    ensures no { result ≡ false → AllByRecursion (λ e. K.cmp key.now e.0
        ≡ Less) (tail_entries (option_map arc_value tail.now)) }
    ensures there { result ≡ false → IsSome (option_map arc_value tree.now) }
{
    if tree.is_none() {
        return true;
    }
    match tail {
        Some(leaf) => !leaf.head().cmp(key).is_gt(),
        None => false,
    }
}

// The value at the key in the leaf.
fn tail_found<'a, K: Key, V: Drop>(tail: &'a Option<Arc<Leaf<K, V>>>, key: &K) -> Option<&'a V>
    requires { T (is_sorted K.cmp (tail_entries (option_map arc_value tail.now))) }
    ensures { option_copied result ≡ find K.cmp key.now (tail_entries (option_map arc_value tail.now)) }
{
    match tail {
        Some(leaf) => {
            let inner: &'a Leaf<K, V> = leaf;
            find_in(&inner.entries, key)
        }
        None => None,
    }
}

// The value at the key in the blocks.
fn tree_found<'a, K: Key, V: Drop>(tree: &'a Option<Arc<Tree<K, V>>>, key: &K) -> Option<&'a V>
    ensures { option_copied result ≡ find K.cmp key.now (tree_entries (option_map arc_value tree.now)) }
{
    match tree {
        Some(held) => {
            let inner: &'a Tree<K, V> = held;
            inner.get(key)
        }
        None => None,
    }
}

// The leaf with a new entry in place of the key's, or with none.
fn tail_changed<K: Key, V: Drop>(
    alloc: Global,
    tail: &Option<Arc<Leaf<K, V>>>,
    key: &K,
    new: Option<Arc<(K, V)>>,
) -> Result<Pieces<Leaf<K, V>>, AllocError>
    requires tail { IfSome (option_map arc_value tail.now) IsLeaf }
    requires sorted { T (is_sorted K.cmp (tail_entries (option_map arc_value tail.now))) }
    requires at_key { IfSome new (λ e. (arc_value e).0 ≡ key.now) }
    ensures entries { IfOk result (λ p. flat_map leaf_entries (blocks_of p)
        ≡ change K.cmp key.now (option_map arc_value new) (tail_entries (option_map arc_value tail.now))) }
    ensures whole { IfOk result (λ p. AllByRecursion IsLeaf (blocks_of p)) }
{
    match tail {
        Some(leaf) => {
            let pieces = leaf.changed(alloc, key, new)?;
            Ok(pieces)
        }
        None => match new {
            Some(entry) => {
                let leaf = leaf_of(alloc, entry)?;
                Ok(Pieces::One(leaf))
            }
            None => Ok(Pieces::Gone),
        },
    }
}

// The blocks with a leaf behind them.
fn with_leaf<K: Key, V: Drop>(
    alloc: Global,
    tree: &Option<Arc<Tree<K, V>>>,
    leaf: Arc<Leaf<K, V>>,
) -> Result<Arc<Tree<K, V>>, AllocError>
    requires whole { IsLeaf (arc_value leaf) }
    requires sorted { T (is_sorted K.cmp (tree_entries (option_map arc_value tree.now)
        ++ leaf_entries (arc_value leaf))) }
    ensures { IfOk result (λ t. arc_value t
        ≡ tree_entries (option_map arc_value tree.now) ++ leaf_entries (arc_value leaf)) }
{
    match tree {
        Some(held) => {
            let tree = held.with_leaf(alloc, leaf)?;
            let tree = Arc::new(alloc, tree)?;
            Ok(tree)
        }
        None => {
            let tree = Tree::of_leaf(alloc, leaf)?;
            let tree = Arc::new(alloc, tree)?;
            Ok(tree)
        }
    }
}

// The blocks with a new entry in place of the key's, or with none.
fn tree_changed<K: Key, V: Drop>(
    alloc: Global,
    tree: &Option<Arc<Tree<K, V>>>,
    key: &K,
    new: Option<Arc<(K, V)>>,
) -> Result<Arc<Tree<K, V>>, AllocError>
    requires there { IsSome (option_map arc_value tree.now) }
    requires at_key { IfSome new (λ e. (arc_value e).0 ≡ key.now) }
    ensures { IfOk result (λ t. arc_value t
        ≡ change K.cmp key.now (option_map arc_value new) (tree_entries (option_map arc_value tree.now))) }
{
    let Some(held) = tree else { unreachable!() };
    let tree = held.changed(alloc, key, new)?;
    let tree = Arc::new(alloc, tree)?;
    Ok(tree)
}

// The blocks, and behind them what the leaf became.
fn with_pieces<K: Key, V: Drop>(
    alloc: Global,
    tree: &Option<Arc<Tree<K, V>>>,
    pieces: Pieces<Leaf<K, V>>,
) -> Result<(Option<Arc<Tree<K, V>>>, Option<Arc<Leaf<K, V>>>), AllocError>
    requires whole { AllByRecursion IsLeaf (blocks_of pieces) }
    requires sorted { T (is_sorted K.cmp (tree_entries (option_map arc_value tree.now)
        ++ flat_map leaf_entries (blocks_of pieces))) }
    ensures entries { IfOk result (λ p. tree_entries (option_map arc_value p.0)
        ++ tail_entries (option_map arc_value p.1)
        ≡ tree_entries (option_map arc_value tree.now) ++ flat_map leaf_entries (blocks_of pieces)) }
    ensures tail { IfOk result (λ p. IfSome (option_map arc_value p.1) IsLeaf) }
{
    match pieces {
        Pieces::Gone => {
            let tree = again(tree)?;
            Ok((tree, None))
        }
        Pieces::One(leaf) => {
            let tree = again(tree)?;
            Ok((tree, Some(leaf)))
        }
        Pieces::Two(low, high) => {
            let tree = with_leaf(alloc, tree, low)?;
            Ok((Some(tree), Some(high)))
        }
    }
}

// The top blocks.
fn blocks_in<K: Key, V: Drop>(tree: &Option<Arc<Tree<K, V>>>) -> &[Arc<Limb<K, V>>]
    ensures entries { flat_map limb_entries (map arc_value result.now)
        ≡ tree_entries (option_map arc_value tree.now) }
    ensures bounded { AllByRecursion IsLimb (map arc_value result.now) }
    ensures spaced { Spaced (map group_count (map arc_value result.now)) }
{
    match tree {
        Some(held) => held.blocks(),
        None => &[],
    }
}

// The entries of the leaf.
fn entries_in<K: Key, V: Drop>(tail: &Option<Arc<Leaf<K, V>>>) -> &[Arc<(K, V)>]
    ensures { map arc_value result.now ≡ tail_entries (option_map arc_value tail.now) }
{
    match tail {
        Some(leaf) => &leaf.entries,
        None => &[],
    }
}

// The entries of the blocks from `least` to `most`, at the end of `out`.
fn tree_ranged<'a, K: Key, V: Drop>(
    out: &mut Vec<&'a (K, V)>,
    tree: &'a Option<Arc<Tree<K, V>>>,
    least: &K,
    most: &K,
) -> Result<(), AllocError>
    ensures { IfOk result (λ _. map pointee out.new.items ≡ map pointee out.old.items
        ++ where_key K.cmp (within K.cmp least.now most.now) (tree_entries (option_map arc_value tree.now))) }
{
    match tree {
        Some(held) => {
            let inner: &'a Tree<K, V> = held;
            inner.ranged(out, least, most)?;
            Ok(())
        }
        None => Ok(()),
    }
}

// The entries of the leaf from `least` to `most`, at the end of `out`.
fn tail_ranged<'a, K: Key, V: Drop>(
    out: &mut Vec<&'a (K, V)>,
    tail: &'a Option<Arc<Leaf<K, V>>>,
    least: &K,
    most: &K,
) -> Result<(), AllocError>
    requires { T (is_sorted K.cmp (tail_entries (option_map arc_value tail.now))) }
    ensures { IfOk result (λ _. map pointee out.new.items ≡ map pointee out.old.items
        ++ where_key K.cmp (within K.cmp least.now most.now) (tail_entries (option_map arc_value tail.now))) }
{
    match tail {
        Some(leaf) => {
            let inner: &'a Leaf<K, V> = leaf;
            range_in(out, &inner.entries, least, most)?;
            Ok(())
        }
        None => Ok(()),
    }
}

// The blocks and the leaf with a new entry in place of the key's, or with none, where it stands in the leaf.
fn edited_behind<K: Key, V: Drop>(
    alloc: Global,
    tree: &Option<Arc<Tree<K, V>>>,
    tail: &Option<Arc<Leaf<K, V>>>,
    key: &K,
    new: Option<Arc<(K, V)>>,
) -> Result<(Option<Arc<Tree<K, V>>>, Option<Arc<Leaf<K, V>>>), AllocError>
    requires tail { IfSome (option_map arc_value tail.now) IsLeaf }
    requires sorted { T (is_sorted K.cmp (tree_entries (option_map arc_value tree.now)
        ++ tail_entries (option_map arc_value tail.now))) }
    requires behind { AllByRecursion (λ e. K.cmp e.0 key.now ≡ Less) (tree_entries (option_map arc_value tree.now)) }
    requires at_key { IfSome new (λ e. (arc_value e).0 ≡ key.now) }
    ensures entries { IfOk result (λ p. tree_entries (option_map arc_value p.0)
        ++ tail_entries (option_map arc_value p.1)
        ≡ change K.cmp key.now (option_map arc_value new)
        (tree_entries (option_map arc_value tree.now) ++ tail_entries (option_map arc_value tail.now))) }
    ensures tail { IfOk result (λ p. IfSome (option_map arc_value p.1) IsLeaf) }
{
    let pieces = tail_changed(alloc, tail, key, new)?;
    let parts = with_pieces(alloc, tree, pieces)?;
    Ok(parts)
}

// The blocks and the leaf with a new entry in place of the key's, or with none, where it stands in the blocks.
fn edited_before<K: Key, V: Drop>(
    alloc: Global,
    tree: &Option<Arc<Tree<K, V>>>,
    tail: &Option<Arc<Leaf<K, V>>>,
    key: &K,
    new: Option<Arc<(K, V)>>,
) -> Result<(Option<Arc<Tree<K, V>>>, Option<Arc<Leaf<K, V>>>), AllocError>
    requires tail { IfSome (option_map arc_value tail.now) IsLeaf }
    requires before { AllByRecursion (λ e. K.cmp key.now e.0 ≡ Less) (tail_entries (option_map arc_value tail.now)) }
    requires there { IsSome (option_map arc_value tree.now) }
    requires at_key { IfSome new (λ e. (arc_value e).0 ≡ key.now) }
    ensures entries { IfOk result (λ p. tree_entries (option_map arc_value p.0)
        ++ tail_entries (option_map arc_value p.1)
        ≡ change K.cmp key.now (option_map arc_value new)
        (tree_entries (option_map arc_value tree.now) ++ tail_entries (option_map arc_value tail.now))) }
    ensures tail { IfOk result (λ p. IfSome (option_map arc_value p.1) IsLeaf) }
{
    let changed = tree_changed(alloc, tree, key, new)?;
    let same = again(tail)?;
    Ok((Some(changed), same))
}

// The blocks and the leaf with a new entry in place of the key's, or with none.
fn edited<K: Key, V: Drop>(
    alloc: Global,
    tree: &Option<Arc<Tree<K, V>>>,
    tail: &Option<Arc<Leaf<K, V>>>,
    key: &K,
    new: Option<Arc<(K, V)>>,
) -> Result<(Option<Arc<Tree<K, V>>>, Option<Arc<Leaf<K, V>>>), AllocError>
    requires tail { IfSome (option_map arc_value tail.now) IsLeaf }
    requires sorted { T (is_sorted K.cmp (tree_entries (option_map arc_value tree.now)
        ++ tail_entries (option_map arc_value tail.now))) }
    requires at_key { IfSome new (λ e. (arc_value e).0 ≡ key.now) }
    ensures entries { IfOk result (λ p. tree_entries (option_map arc_value p.0)
        ++ tail_entries (option_map arc_value p.1)
        ≡ change K.cmp key.now (option_map arc_value new)
        (tree_entries (option_map arc_value tree.now) ++ tail_entries (option_map arc_value tail.now))) }
    ensures tail { IfOk result (λ p. IfSome (option_map arc_value p.1) IsLeaf) }
{
    if is_behind(tree, tail, key) {
        let parts = edited_behind(alloc, tree, tail, key, new)?;
        return Ok(parts);
    }
    let parts = edited_before(alloc, tree, tail, key, new)?;
    Ok(parts)
}

impl<K: Key, V: Drop> Map<K, V> {
    /// The map without entries. It takes no memory.
    pub fn empty(alloc: Global) -> Self
        ensures { result ≡ [] }
    {
        let _ = alloc;
        Map {
            body: Body {
                tree: None,
                tail: None,
            },
            len: 0,
        }
    }

    /// The number of entries.
    pub fn len(&self) -> u64
        ensures len { result ≡ length self.now }
        ensures sorted { T (is_sorted K.cmp self.now) }
    {
        self.len
    }

    /// Whether there is no entry.
    pub fn is_empty(&self) -> bool
        ensures { IsTrue result ↔ (length self.now ≡ 0) }
    {
        self.len == 0
    }

    /// The number of top blocks. A map of this width has at least 2048 entries for each two of them.
    pub fn width(&self) -> u64
        ensures blocks { IsWidth result self.now }
        ensures long { 2048 * (result / 2) ≤ length self.now }
    {
        blocks_in(&self.body.tree).len() as u64
    }

    /// The top blocks. Each has 1 to `FULL` blocks, each of these as many, each of these as many leaves, and each leaf as many entries; two
    /// neighbours in a row have together more than `FEW` members. Behind them stand at most `FULL` entries more.
    pub fn blocks(&self) -> &[Arc<Limb<K, V>>]
        ensures { IsCut (map arc_value result.now) self.now }
    {
        blocks_in(&self.body.tree)
    }

    /// The value at the key, or none. It takes no memory, and compares about as many keys as the length has binary digits.
    pub fn get(&self, key: &K) -> Option<&V>
        ensures { option_copied result ≡ find K.cmp key.now self.now }
    {
        if is_behind(&self.body.tree, &self.body.tail, key) {
            tail_found(&self.body.tail, key)
        } else {
            tree_found(&self.body.tree, key)
        }
    }

    // The map with a new entry in place of the key's, or with none.
    fn edited(
        &self,
        alloc: Global,
        key: &K,
        new: Option<Arc<(K, V)>>,
        len: u64,
    ) -> Result<Self, AllocError>
        requires at_key { IfSome new (λ e. (arc_value e).0 ≡ key.now) }
        requires len { len ≡ length (change K.cmp key.now (option_map arc_value new) self.now) }
        ensures { IfOk result (λ m. m ≡ change K.cmp key.now (option_map arc_value new) self.now) }
    {
        let (tree, tail) = edited(alloc, &self.body.tree, &self.body.tail, key, new)?;
        Ok(Map {
            body: Body { tree, tail },
            len,
        })
    }

    /// The map with the value at the key, in place of an older one.
    ///
    /// A new key where there are 2^64 - 1 entries is refused as want of memory.
    pub fn with(&self, alloc: Global, key: K, value: V) -> Result<Self, AllocError>
        ensures { IfOk result (λ m. m ≡ put K.cmp key value self.now) }
    {
        let found = self.get(&key).is_some();
        let old = self.len();
        if !found && old == u64::MAX {
            return Err(AllocError);
        }
        let len = if found { old } else { old + 1 };
        let entry = Arc::new(alloc, (key, value))?;
        let again = Arc::try_clone(&entry)?;
        let at: &Arc<(K, V)> = &again;
        let map = self.edited(alloc, &at.0, Some(entry), len)?;
        Ok(map)
    }

    /// The map without the key. Where it has none, all stays.
    pub fn without(&self, alloc: Global, key: &K) -> Result<Self, AllocError>
        ensures { IfOk result (λ m. m ≡ without_key K.cmp key.now self.now) }
    {
        let old = self.len();
        let len = if self.get(key).is_some() {
            old - 1
        } else {
            old
        };
        let map = self.edited(alloc, key, None, len)?;
        Ok(map)
    }

    /// The same map once more. All is shared, and no entry is copied.
    pub fn share(&self, alloc: Global) -> Result<Self, AllocError>
        ensures { IfOk result (λ m. m ≡ self.now) }
    {
        let _ = alloc;
        let tree = again(&self.body.tree)?;
        let tail = again(&self.body.tail)?;
        Ok(Map {
            body: Body { tree, tail },
            len: self.len,
        })
    }

    /// The entries whose keys lie from `least` to `most`, both counted, in order.
    ///
    /// It looks at the entries of the range, and at a bounded number of others.
    pub fn range(&self, alloc: Global, least: &K, most: &K) -> Result<Vec<&(K, V)>, AllocError>
        ensures { IfOk result (λ r. map pointee r.items ≡ where_key K.cmp (within K.cmp least.now most.now) self.now) }
    {
        let mut out = Vec::new(alloc);
        tree_ranged(&mut out, &self.body.tree, least, most)?;
        tail_ranged(&mut out, &self.body.tail, least, most)?;
        Ok(out)
    }

    /// An iterator over the entries in order, which takes no memory.
    pub fn iter(&self) -> Iter<'_, K, V>
        ensures all { rest result ≡ self.now }
        ensures sorted { T (is_sorted K.cmp self.now) }
    {
        Iter {
            entries: &[],
            leaves: &[],
            middles: &[],
            branches: &[],
            blocks: blocks_in(&self.body.tree),
            tail: entries_in(&self.body.tail),
        }
    }
}
