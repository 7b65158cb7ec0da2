//! Pairs by their places, with their indexes.
ghost use Rattle.std.specs.Prelude.{◌≡◌, ◌++◌, ◌∷◌, ◌&&◌, ℕ, ◌==◌, if◌then◌else◌, None, Some, [], map, filter, option_and_then, IfOk, OnOk, T};
ghost use Rattle.std.specs.List.{list_any};
ghost use Rattle.core.specs.Ordering.{nat_cmp};
ghost use Rattle.core.specs.FinMap.Entries.{find, put, is_sorted};
ghost use Rattle.cmis_spec.specs.Repository.{same};
ghost use Rattle.place_laws.specs.Places.{but};
ghost use Rattle.cm_link.specs.Linked.{IsIndexed};

use cm_base::filing::Applied;
use cm_base::number::Oid;
use cm_map::buckets::Buckets;
use cm_map::map::Map;
use std::alloc::{AllocError, Global};

/// Pairs by the places in which they were made; their policies by object, and their objects by policy.
#[derive(Drop)]
pub struct Pairs {
    pub entries: Map<u64, Applied>,
    pub by_object: Buckets<u64, u64, Oid>,
    pub by_policy: Buckets<u64, u64, Oid>,
}

// The places.
fn places(alloc: Global, policies: &Map<u64, Oid>) -> Result<Vec<u64>, AllocError>
    ensures { IfOk result (λ all. all.items ≡ map (λ e. e.0) policies.now) }
{
    let mut all = Vec::new(alloc);
    for entry in policies.iter() {
        let at: &(u64, Oid) = entry;
        all.push(at.0)?;
    }
    Ok(all)
}

// Adds the place where it has the policy.
fn add_place(all: &mut Vec<u64>, at: &(u64, Oid), policy: Oid) -> Result<(), AllocError>
    ensures { OnOk result (all.new.items
        ≡ all.old.items ++ map (λ e. e.0) (filter (λ e. same e.1 policy) (at.now ∷ []))) }
{
    if at.1.0 == policy.0 {
        all.push(at.0)?;
    }
    Ok(())
}

// The places that have the policy.
fn places_of(alloc: Global, policies: &Map<u64, Oid>, policy: Oid) -> Result<Vec<u64>, AllocError>
    ensures value { IfOk result (λ all. all.items
        ≡ map (λ e. e.0) (filter (λ e. same e.1 policy) policies.now)) }
    ensures sorted { T (is_sorted nat_cmp policies.now) }
{
    let mut all = Vec::new(alloc);
    for entry in policies.iter() {
        let at: &(u64, Oid) = entry;
        add_place(&mut all, at, policy)?;
    }
    Ok(all)
}

impl Pairs {
    /// No pairs, which take no memory.
    pub fn empty(alloc: Global) -> Pairs
        ensures indexed { IsIndexed result.entries result.by_object result.by_policy }
        ensures entries { result.entries ≡ [] }
    {
        Pairs {
            entries: Map::empty(alloc),
            by_object: Buckets::empty(alloc),
            by_policy: Buckets::empty(alloc),
        }
    }

    /// The same pairs once more, by sharing.
    pub fn share(&self, alloc: Global) -> Result<Pairs, AllocError>
        ensures { IfOk result (λ s. s ≡ self.now) }
    {
        let entries = self.entries.share(alloc)?;
        let by_object = self.by_object.share(alloc)?;
        let by_policy = self.by_policy.share(alloc)?;
        Ok(Pairs {
            entries,
            by_object,
            by_policy,
        })
    }

    /// The pairs with one more, in a place that has none.
    pub fn with_pair(&self, alloc: Global, place: u64, pair: Applied) -> Result<Pairs, AllocError>
        requires indexed { IsIndexed self.now.entries self.now.by_object self.now.by_policy }
        requires free { find nat_cmp place self.now.entries ≡ None }
        ensures indexed { IfOk result (λ s. IsIndexed s.entries s.by_object s.by_policy) }
        ensures entries { IfOk result (λ s. s.entries ≡ put nat_cmp place pair self.now.entries) }
    {
        let by_object = self
            .by_object
            .with(alloc, pair.object.0, place, pair.policy)?;
        let by_policy = self
            .by_policy
            .with(alloc, pair.policy.0, place, pair.object)?;
        let entries = self.entries.with(alloc, place, pair)?;
        Ok(Pairs {
            entries,
            by_object,
            by_policy,
        })
    }

    // The pairs without one that is there.
    fn without_pair(&self, alloc: Global, place: u64, pair: &Applied) -> Result<Pairs, AllocError>
        requires indexed { IsIndexed self.now.entries self.now.by_object self.now.by_policy }
        requires there { find nat_cmp place self.now.entries ≡ Some pair.now }
        ensures indexed { IfOk result (λ s. IsIndexed s.entries s.by_object s.by_policy) }
        ensures found { IfOk result (λ s. (p : ℕ) →
            find nat_cmp p s.entries ≡ (if p == place then None else find nat_cmp p self.now.entries)) }
    {
        let by_object = self.by_object.without(alloc, pair.object.0, &place)?;
        let by_policy = self.by_policy.without(alloc, pair.policy.0, &place)?;
        let entries = self.entries.without(alloc, &place)?;
        Ok(Pairs {
            entries,
            by_object,
            by_policy,
        })
    }

    // The pairs without the one in the place.
    fn cleared(&self, alloc: Global, place: u64) -> Result<Pairs, AllocError>
        requires indexed { IsIndexed self.now.entries self.now.by_object self.now.by_policy }
        ensures indexed { IfOk result (λ s. IsIndexed s.entries s.by_object s.by_policy) }
        ensures found { IfOk result (λ s. (p : ℕ) →
            find nat_cmp p s.entries ≡ (if p == place then None else find nat_cmp p self.now.entries)) }
    {
        match self.entries.get(&place) {
            Some(pair) => {
                let pairs = self.without_pair(alloc, place, pair)?;
                Ok(pairs)
            }
            None => {
                let pairs = self.share(alloc)?;
                Ok(pairs)
            }
        }
    }

    /// The pairs without those in the places.
    pub fn cleared_all(&self, alloc: Global, places: &[u64]) -> Result<Pairs, AllocError>
        requires indexed { IsIndexed self.now.entries self.now.by_object self.now.by_policy }
        ensures indexed { IfOk result (λ s. IsIndexed s.entries s.by_object s.by_policy) }
        ensures found { IfOk result (λ s. (p : ℕ) → find nat_cmp p s.entries
            ≡ (if list_any (λ q. p == q) places.now then None else find nat_cmp p self.now.entries)) }
    {
        let begin = self.share(alloc)?;
        let mut pairs = begin;
        for place in places {
            pairs = pairs.cleared(alloc, *place)?;
        }
        Ok(pairs)
    }

    /// The pairs without those of the policy and the object.
    pub fn without_policy(
        &self,
        alloc: Global,
        policy: Oid,
        object: Oid,
    ) -> Result<Pairs, AllocError>
        requires indexed { IsIndexed self.now.entries self.now.by_object self.now.by_policy }
        ensures indexed { IfOk result (λ s. IsIndexed s.entries s.by_object s.by_policy) }
        ensures found { IfOk result (λ s. (p : ℕ) → find nat_cmp p s.entries
            ≡ option_and_then (but (λ a. same a.policy policy && same a.object object))
            (find nat_cmp p self.now.entries)) }
    {
        match self.by_object.bucket(&object.0) {
            Some(policies) => {
                let places = places_of(alloc, policies, policy)?;
                let pairs = self.cleared_all(alloc, &places)?;
                Ok(pairs)
            }
            None => {
                let pairs = self.share(alloc)?;
                Ok(pairs)
            }
        }
    }

    /// The pairs without those of the object.
    pub fn without_object(&self, alloc: Global, object: Oid) -> Result<Pairs, AllocError>
        requires indexed { IsIndexed self.now.entries self.now.by_object self.now.by_policy }
        ensures indexed { IfOk result (λ s. IsIndexed s.entries s.by_object s.by_policy) }
        ensures found { IfOk result (λ s. (p : ℕ) → find nat_cmp p s.entries
            ≡ option_and_then (but (λ a. same a.object object)) (find nat_cmp p self.now.entries)) }
    {
        match self.by_object.bucket(&object.0) {
            Some(policies) => {
                let places = places(alloc, policies)?;
                let pairs = self.cleared_all(alloc, &places)?;
                Ok(pairs)
            }
            None => {
                let pairs = self.share(alloc)?;
                Ok(pairs)
            }
        }
    }
}
