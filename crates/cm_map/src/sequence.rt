//! Lists that grow at their end.
ghost use Rattle.std.specs.Prelude.{◌≡◌, ◌≤◌, List, [], ◌∷◌, ◌++◌, map, length, slice_get, Some, IfOk, MatchOption};
ghost use Rattle.std.specs.List.{enumerate_from};
ghost use Rattle.cm_map.specs.Rests.{rest};

use crate::iter::Iter;
use crate::map::Map;
use std::alloc::{AllocError, Global};
use std::marker::Model;

/// A list that grows at its end. A longer list leaves the old one as it was, and shares with it all but a few blocks.
#[derive(Drop)]
pub struct Sequence<V: Drop> {
    entries: Map<u64, V>,
}

impl<V: Drop> Model for Sequence<V> {
    ghost use Rattle.std.specs.Prelude.{List, map, ◌≡◌};
    ghost use Rattle.std.specs.List.{enumerate_from};

    ghost Value = { List V };

    ghost view = { λ s. map (λ e. e.1) s.entries };

    ghost invariant = { λ s. s.entries ≡ enumerate_from 0 (map (λ e. e.1) s.entries) };
}

impl<V: Drop> Sequence<V> {
    /// The empty list, which takes no memory.
    pub fn empty(alloc: Global) -> Sequence<V>
        ensures { result ≡ [] }
    {
        Sequence {
            entries: Map::empty(alloc),
        }
    }

    /// The number of members.
    pub fn len(&self) -> u64
        ensures { result ≡ length self.now }
    {
        self.entries.len()
    }

    /// The member at a place, counted from 0; none exactly from the length on.
    pub fn get(&self, place: u64) -> Option<&V>
        ensures { MatchOption result (length self.now ≤ place) (λ x. slice_get self.now place ≡ Some x.now) }
    {
        self.entries.get(&place)
    }

    /// The list with one member more at its end.
    pub fn with_last(&self, alloc: Global, member: V) -> Result<Sequence<V>, AllocError>
        ensures { IfOk result (λ s. s ≡ self.now ++ member ∷ []) }
    {
        let entries = self.entries.with(alloc, self.entries.len(), member)?;
        Ok(Sequence { entries })
    }

    /// The same list once more, which shares every member.
    pub fn share(&self, alloc: Global) -> Result<Sequence<V>, AllocError>
        ensures { IfOk result (λ s. s ≡ self.now) }
    {
        let entries = self.entries.share(alloc)?;
        Ok(Sequence { entries })
    }

    /// The members in order, each behind its place; no memory is taken.
    pub fn iter(&self) -> Iter<'_, u64, V>
        ensures { map (λ e. e.1) (rest result) ≡ self.now }
    {
        self.entries.iter()
    }
}
