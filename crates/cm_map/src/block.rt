//! What a row is made of: leaves, or blocks of blocks.
ghost use Rattle.std.specs.Prelude.{◌≡◌, ℕ, ◌+◌, ◌≤◌, ◌++◌, List, map, T, Option, IfOk, IfSome, IsSome, option_map, option_copied};
ghost use Rattle.std.specs.Arc.{arc_value};
ghost use Rattle.core.specs.List.{AllByRecursion, flat_map};
ghost use Rattle.core.specs.FinMap.Entries.{find, is_sorted, where_key};
ghost use Rattle.cm_map.specs.Parts.{first_of, pointee, within};
ghost use Rattle.cm_map.specs.Rows.{Spaced, change};
ghost use Rattle.cm_map.specs.Pieces.{blocks_of};
ghost use Rattle.cm_map.specs.Sizes.{full, few};

use crate::key::{Headed, Key};
use crate::pieces::Pieces;
use std::alloc::{AllocError, Global};
use std::sync::Arc;

/// A block of entries in order. No block of a row is empty or has more than `FULL` members.
pub trait Block<K: Key, V: Drop>: Headed<K> {
    ghost entries: { Self → List (K × V) };

    ghost count: { Self → ℕ };

    ghost whole: { Self → Type 0 };

    /// The number of its members, which are entries or blocks.
    fn size(&self) -> usize
        ensures { result ≡ count self.now };

    /// Two small blocks as one.
    fn join(&self, other: &Self, alloc: Global) -> Result<Arc<Self>, AllocError>
        requires one { whole self.now }
        requires two { whole other.now }
        requires small { count self.now + count other.now ≤ few }
        ensures entries { IfOk result (λ b. entries (arc_value b) ≡ entries self.now ++ entries other.now) }
        ensures whole { IfOk result (λ b. whole (arc_value b)) }
        ensures first { IfOk result (λ b. count self.now ≤ count (arc_value b)) }
        ensures second { IfOk result (λ b. count other.now ≤ count (arc_value b)) }
        ensures small { IfOk result (λ b. count (arc_value b) ≤ few) };

    /// The block with another entry at the key, or none.
    fn changed(
        &self,
        alloc: Global,
        key: &K,
        new: Option<Arc<(K, V)>>,
    ) -> Result<Pieces<Self>, AllocError>
        requires whole { whole self.now }
        requires sorted { T (is_sorted K.cmp (entries self.now)) }
        requires at_key { IfSome new (λ e. (arc_value e).0 ≡ key.now) }
        ensures entries { IfOk result (λ p. flat_map entries (blocks_of p)
            ≡ change K.cmp key.now (option_map arc_value new) (entries self.now)) }
        ensures whole { IfOk result (λ p. AllByRecursion whole (blocks_of p)) }
        ensures spaced { IfOk result (λ p. Spaced (map count (blocks_of p))) };

    /// The value at the key.
    fn found(&self, key: &K) -> Option<&V>
        requires whole { whole self.now }
        requires sorted { T (is_sorted K.cmp (entries self.now)) }
        ensures { option_copied result ≡ find K.cmp key.now (entries self.now) };

    /// Its entries from `least` to `most`, at the end of `out`.
    fn ranged<'a>(
        &'a self,
        out: &mut Vec<&'a (K, V)>,
        least: &K,
        most: &K,
    ) -> Result<(), AllocError>
        requires whole { whole self.now }
        requires sorted { T (is_sorted K.cmp (entries self.now)) }
        ensures { IfOk result (λ _. map pointee out.new.items
            ≡ map pointee out.old.items ++ where_key K.cmp (within K.cmp least.now most.now) (entries self.now)) };

    ghost heads: { (b : Self) → whole b → (Self.first b ≡ first_of (entries b)) × IsSome (Self.first b) × (1 ≤ count b)
        × (count b ≤ full) };
}
