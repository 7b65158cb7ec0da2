//! Sets of keys.
ghost use Rattle.std.specs.Prelude.{◌≡◌, ◌||◌, ◌&&◌, not, List, [], map, filter, length, IfOk};
ghost use Rattle.core.specs.Ordering.{eq_by_cmp};
ghost use Rattle.cm_map.specs.Parts.{pointee, within};
ghost use Rattle.cm_map.specs.Sets.{IsRising, has_key, with_key, all_but_key, key_of};
ghost use Rattle.cm_map.specs.Rests.{rest};

use crate::iter::Iter;
use crate::key::Key;
use crate::map::Map;
use std::alloc::{AllocError, Global};
use std::marker::Model;

/// A set of keys, seen as the list of them in order. As with `Map`, a change leaves the old set as it was.
#[derive(Drop)]
pub struct Set<K: Key> {
    entries: Map<K, ()>,
}

impl<K: Key> Model for Set<K> {
    ghost Value = { List K };

    ghost view = { λ s. map key_of s.entries };
}

impl<K: Key> Set<K> {
    /// The set without keys. It takes no memory.
    pub fn empty(alloc: Global) -> Self
        ensures { result ≡ [] }
    {
        Set {
            entries: Map::empty(alloc),
        }
    }

    /// The number of keys.
    pub fn len(&self) -> u64
        ensures len { result ≡ length self.now }
        ensures rising { IsRising K.cmp self.now }
    {
        self.entries.len()
    }

    /// Whether the key is there. It takes no memory.
    pub fn has(&self, key: &K) -> bool
        ensures { result ≡ has_key K.cmp key.now self.now }
    {
        self.entries.get(key).is_some()
    }

    /// The set with the key. Where it is there, all stays.
    pub fn with(&self, alloc: Global, key: K) -> Result<Self, AllocError>
        ensures keys { IfOk result (λ s. s ≡ with_key K.cmp self.now key) }
        ensures has { IfOk result (λ s. (q : K) → has_key K.cmp q s
            ≡ (eq_by_cmp K.cmp q key || has_key K.cmp q self.now)) }
    {
        let _count = self.entries.len();
        let entries = self.entries.with(alloc, key, ())?;
        Ok(Set { entries })
    }

    /// The set without the key. Where it isn't there, all stays.
    pub fn without(&self, alloc: Global, key: &K) -> Result<Self, AllocError>
        ensures keys { IfOk result (λ s. s ≡ all_but_key K.cmp key.now self.now) }
        ensures has { IfOk result (λ s. (q : K) → has_key K.cmp q s
            ≡ (has_key K.cmp q self.now && not (eq_by_cmp K.cmp q key.now))) }
    {
        let entries = self.entries.without(alloc, key)?;
        Ok(Set { entries })
    }

    /// The same set once more, by sharing.
    pub fn share(&self, alloc: Global) -> Result<Self, AllocError>
        ensures { IfOk result (λ s. s ≡ self.now) }
    {
        let entries = self.entries.share(alloc)?;
        Ok(Set { entries })
    }

    /// The keys from `least` to `most`, both counted, in order.
    pub fn range(&self, alloc: Global, least: &K, most: &K) -> Result<Vec<&K>, AllocError>
        ensures { IfOk result (λ r. map pointee r.items ≡ filter (within K.cmp least.now most.now) self.now) }
    {
        let entries = self.entries.range(alloc, least, most)?;
        let mut keys = Vec::new(alloc);
        for e in &entries {
            let entry: &(K, ()) = e;
            keys.push(&entry.0)?;
        }
        Ok(keys)
    }

    /// An iterator over the entries in order, each a key beside nothing. It takes no memory.
    pub fn iter(&self) -> Iter<'_, K, ()>
        ensures all { map key_of (rest result) ≡ self.now }
        ensures rising { IsRising K.cmp self.now }
    {
        self.entries.iter()
    }
}
