//! Indexes.
ghost use Rattle.std.specs.Prelude.{◌≡◌, ◌<◌, ◌==◌, ◌||◌, ◌&&◌, not, List, [], map, length, IfOk};
ghost use Rattle.std.specs.List.{list_any};
ghost use Rattle.cm_map.specs.Parts.{pointee};
ghost use Rattle.cm_map.specs.Sets.{IsRising, with_key, all_but_key};
ghost use Rattle.core.specs.Ordering.{nat_cmp};
ghost use Rattle.cm_objects.specs.Pairs.{same_pair, has_pair, ids_of, pair_order, AreNumbers};

use crate::index_key::IndexKey;
use cm_base::copies::Copies;
use cm_base::items::Items;
use cm_base::number::{Oid, Oids};
use cm_map::set::Set;
use std::alloc::{AllocError, Global};
use std::marker::Model;

/// A set of pairs of a key and the number of an object, seen as the list of them in order.
#[derive(Drop)]
pub struct Index {
    pairs: Set<(IndexKey, Oid)>,
}

impl Model for Index {
    ghost use Rattle.std.specs.Prelude.{List};
    ghost use Rattle.cm_objects.specs.Pairs.{AreNumbers};
    ghost use Rattle.cm_base.specs.declared.number.Oid.{Oid};
    ghost use Rattle.cm_objects.specs.declared.index_key.IndexKey.{IndexKey};

    ghost Value = { List (IndexKey × Oid) };

    ghost view = { λ s. s.pairs };

    ghost invariant = { λ s. AreNumbers s.pairs };
}

impl Index {
    /// The index without pairs. It takes no memory.
    pub fn empty(alloc: Global) -> Index
        ensures { result ≡ [] }
    {
        Index {
            pairs: Set::empty(alloc),
        }
    }

    /// The index with the pair. Where it is there, all stays.
    pub fn with_pair(&self, alloc: Global, key: IndexKey, x: Oid) -> Result<Index, AllocError>
        ensures pairs { IfOk result (λ s. s ≡ with_key pair_order self.now (key, x)) }
        ensures has { IfOk result (λ s. (q : IndexKey × Oid) → has_pair q s
            ≡ (same_pair q (key, x) || has_pair q self.now)) }
    {
        let number = same_number(x.0);
        let pairs = self.pairs.with(alloc, (key, Oid(number)))?;
        Ok(Index { pairs })
    }

    /// The index without the pair. Where it isn't there, all stays.
    pub fn without_pair(&self, alloc: Global, key: IndexKey, x: Oid) -> Result<Index, AllocError>
        ensures pairs { IfOk result (λ s. s ≡ all_but_key pair_order (key, x) self.now) }
        ensures has { IfOk result (λ s. (q : IndexKey × Oid) → has_pair q s
            ≡ (has_pair q self.now && not (same_pair q (key, x)))) }
    {
        let pair = (key, x);
        let pairs = self.pairs.without(alloc, &pair)?;
        Ok(Index { pairs })
    }

    /// The numbers beside the key, in rising order. It looks at them and at a bounded number of other pairs.
    pub fn of_key(&self, alloc: Global, key: &IndexKey) -> Result<Oids, AllocError>
        ensures ids { IfOk result (λ ids. ids ≡ ids_of key.now self.now) }
        ensures rising { IfOk result (λ ids. IsRising (λ x y. nat_cmp x.0 y.0) ids) }
        ensures has { IfOk result (λ ids. (x : Oid) → list_any (λ y. x.0 == y.0) ids ≡ has_pair (key.now, x) self.now) }
    {
        let least = (key.copied(alloc)?, Oid(0));
        let most = (key.copied(alloc)?, Oid(u64::MAX));
        let _count = self.pairs.len();
        let pairs = self.pairs.range(alloc, &least, &most)?;
        let ids = ids_in(alloc, &pairs)?;
        Ok(ids)
    }

    /// The same index once more, by sharing.
    pub fn share(&self, alloc: Global) -> Result<Index, AllocError>
        ensures { IfOk result (λ s. s ≡ self.now) }
    {
        let pairs = self.pairs.share(alloc)?;
        Ok(Index { pairs })
    }
}

// The same number, which has at most 64 bits.
fn same_number(number: u64) -> u64
    ensures same { result ≡ number }
    ensures fits { result < 18446744073709551616 }
{
    number
}

// The numbers of these pairs.
fn ids_in(alloc: Global, pairs: &[&(IndexKey, Oid)]) -> Result<Oids, AllocError>
    ensures { IfOk result (λ ids. ids ≡ map (λ p. p.1) (map pointee pairs.now)) }
{
    let mut ids = Vec::new(alloc);
    for pair in pairs {
        let pair: &(IndexKey, Oid) = pair;
        ids.push(pair.1)?;
    }
    Ok(Items::from_vec(ids))
}
