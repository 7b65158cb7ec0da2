//! Maps under keys.
ghost use Rattle.std.specs.Prelude.{◌≡◌, ◌&&◌, List, [], Option, Some, None, IfOk, option_copied, if◌then◌else◌};
ghost use Rattle.core.specs.Ordering.{eq_by_cmp};
ghost use Rattle.core.specs.FinMap.Entries.{put, find};
ghost use Rattle.cm_map.specs.Parts.{without_key};
ghost use Rattle.cm_map.specs.Buckets.{find_in, bucket_of, with_bucket};

use crate::key::Key;
use crate::map::Map;
use std::alloc::{AllocError, Global};
use std::marker::Model;

/// Maps, each under a key of its own, as the children of each folder by name. A change leaves the old maps as they were.
#[derive(Drop)]
pub struct Buckets<K: Key, J: Key, V: Drop> {
    maps: Map<K, Map<J, V>>,
}

impl<K: Key, J: Key, V: Drop> Model for Buckets<K, J, V> {
    ghost use Rattle.std.specs.Prelude.{List};

    ghost Value = { List (K × List (J × V)) };

    ghost view = { λ s. s.maps };
}

impl<K: Key, J: Key, V: Drop> Buckets<K, J, V> {
    /// No maps, which take no memory.
    pub fn empty(alloc: Global) -> Buckets<K, J, V>
        ensures { result ≡ [] }
    {
        Buckets {
            maps: Map::empty(alloc),
        }
    }

    /// The map under the outer key. It takes no memory.
    pub fn bucket(&self, outer: &K) -> Option<&Map<J, V>>
        ensures { option_copied result ≡ find K.cmp outer.now self.now }
    {
        self.maps.get(outer)
    }

    /// The value at the inner key under the outer one. It takes no memory.
    pub fn get(&self, outer: &K, inner: &J) -> Option<&V>
        ensures { option_copied result ≡ find_in K.cmp J.cmp self.now outer.now inner.now }
    {
        let map = self.maps.get(outer)?;
        map.get(inner)
    }

    // The map under the outer key with one more entry.
    fn bucket_with(
        &self,
        alloc: Global,
        outer: &K,
        inner: J,
        value: V,
    ) -> Result<Map<J, V>, AllocError>
        ensures { IfOk result (λ m. m ≡ put J.cmp inner value (bucket_of K.cmp self.now outer.now)) }
    {
        match self.maps.get(outer) {
            Some(old) => old.with(alloc, inner, value),
            None => Map::empty(alloc).with(alloc, inner, value),
        }
    }

    /// The maps with the value at the inner key under the outer one, in place of an older value.
    pub fn with(
        &self,
        alloc: Global,
        outer: K,
        inner: J,
        value: V,
    ) -> Result<Buckets<K, J, V>, AllocError>
        ensures bucket { IfOk result (λ m. m ≡ put K.cmp outer
            (put J.cmp inner value (bucket_of K.cmp self.now outer)) self.now) }
        ensures found { IfOk result (λ m. (n : K) (k : J) → find_in K.cmp J.cmp m n k
            ≡ (if eq_by_cmp K.cmp n outer && eq_by_cmp J.cmp k inner then Some value else find_in K.cmp J.cmp self.now n
            k)) }
    {
        let map = self.bucket_with(alloc, &outer, inner, value)?;
        let maps = self.maps.with(alloc, outer, map)?;
        Ok(Buckets { maps })
    }

    // The map under the outer key without the inner one.
    fn bucket_without(&self, alloc: Global, outer: &K, inner: &J) -> Result<Map<J, V>, AllocError>
        ensures { IfOk result (λ m. m ≡ without_key J.cmp inner.now (bucket_of K.cmp self.now outer.now)) }
    {
        match self.maps.get(outer) {
            Some(old) => old.without(alloc, inner),
            None => Ok(Map::empty(alloc)),
        }
    }

    // The maps with this one under the outer key, or with none where it is empty.
    fn maps_with(
        &self,
        alloc: Global,
        outer: K,
        map: Map<J, V>,
    ) -> Result<Map<K, Map<J, V>>, AllocError>
        ensures { IfOk result (λ m. m ≡ with_bucket K.cmp outer map self.now) }
    {
        if map.is_empty() {
            return self.maps.without(alloc, &outer);
        }
        self.maps.with(alloc, outer, map)
    }

    /// The maps without the value at the inner key under the outer one. A map that is empty then goes too.
    pub fn without(
        &self,
        alloc: Global,
        outer: K,
        inner: &J,
    ) -> Result<Buckets<K, J, V>, AllocError>
        ensures bucket { IfOk result (λ m. m ≡ with_bucket K.cmp outer
            (without_key J.cmp inner.now (bucket_of K.cmp self.now outer)) self.now) }
        ensures found { IfOk result (λ m. (n : K) (k : J) → find_in K.cmp J.cmp m n k
            ≡ (if eq_by_cmp K.cmp n outer && eq_by_cmp J.cmp k inner.now then None else find_in K.cmp J.cmp self.now n
            k)) }
    {
        let map = self.bucket_without(alloc, &outer, inner)?;
        let maps = self.maps_with(alloc, outer, map)?;
        Ok(Buckets { maps })
    }

    /// The same maps once more.
    pub fn share(&self, alloc: Global) -> Result<Buckets<K, J, V>, AllocError>
        ensures { IfOk result (λ m. m ≡ self.now) }
    {
        let maps = self.maps.share(alloc)?;
        Ok(Buckets { maps })
    }
}
