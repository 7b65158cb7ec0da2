//! The applied policies of a repository.
ghost use Rattle.std.specs.Prelude.{◌≡◌, ◌++◌, ◌∷◌, ◌&&◌, [], not, map, filter, IfOk, T};
ghost use Rattle.std.specs.List.{list_any};
ghost use Rattle.core.specs.Ordering.{nat_cmp};
ghost use Rattle.core.specs.FinMap.Entries.{is_sorted};
ghost use Rattle.cmis_spec.specs.Repository.{same};

use crate::pairs::Pairs;
use cm_base::filing::Applied;
use cm_base::items::Items;
use cm_base::number::{Oid, Oids};
use cm_map::map::Map;
use std::alloc::{AllocError, Global};
use std::marker::Model;

/// Which policies are applied to which objects (CMIS 1.1, section 2.1.9.1), seen as the list of the pairs in the order in which
/// they were applied. A change leaves the old list as it was, and shares with it all but a few blocks.
pub struct Links {
    pub(crate) pairs: Pairs,
    pub(crate) next: u64,
}

// That the pairs go is proved here once, and not at each place where they go.
impl Drop for Links {
    fn drop(self) {
        let Links { pairs: _, next: _ } = self;
    }
}

impl Model for Links {
    ghost use Rattle.std.specs.Prelude.{List, map};
    ghost use Rattle.cm_base.specs.declared.filing.Applied.{Applied};
    ghost use Rattle.cm_link.specs.Linked.{IsLinks};

    ghost Value = { List Applied };

    ghost view = { λ s. map (λ e. e.1) s.pairs.entries };

    ghost invariant = { λ s. IsLinks s.pairs.entries s.next s.pairs.by_object s.pairs.by_policy };
}

// One of the policies is this one.
fn has_policy(policies: &Map<u64, Oid>, policy: Oid) -> bool
    ensures value { result ≡ list_any (λ e. same e.1 policy) policies.now }
    ensures sorted { T (is_sorted nat_cmp policies.now) }
{
    let mut found = false;
    for entry in policies.iter() {
        let at: &(u64, Oid) = entry;
        if at.1.0 == policy.0 {
            found = true;
        }
    }
    found
}

// The numbers in their places' order.
fn values(alloc: Global, numbers: &Map<u64, Oid>) -> Result<Oids, AllocError>
    ensures value { IfOk result (λ ns. ns ≡ map (λ e. e.1) numbers.now) }
    ensures sorted { T (is_sorted nat_cmp numbers.now) }
{
    let mut all = Items::new(alloc);
    for entry in numbers.iter() {
        let at: &(u64, Oid) = entry;
        all.push(at.1)?;
    }
    Ok(all)
}

impl Links {
    /// No pairs, which take no memory.
    pub fn empty(alloc: Global) -> Links
        ensures { result ≡ [] }
    {
        Links {
            pairs: Pairs::empty(alloc),
            next: 0,
        }
    }

    /// The same list once more, which shares every pair.
    pub fn share(&self, alloc: Global) -> Result<Links, AllocError>
        ensures { IfOk result (λ l. l ≡ self.now) }
    {
        let pairs = self.pairs.share(alloc)?;
        Ok(Links {
            pairs,
            next: self.next,
        })
    }

    /// The policy applied to the object, behind all others, also where it is applied already.
    ///
    /// Each pair takes a place that no later one gets, also where the pair goes: after 2^64 - 1 pairs that there ever were, the answer
    /// is want of memory.
    pub fn apply(&self, alloc: Global, policy: Oid, object: Oid) -> Result<Links, AllocError>
        ensures { IfOk result (λ l. l ≡ self.now ++ record { policy = policy; object = object } ∷ []) }
    {
        let place = self.next;
        if place == u64::MAX {
            return Err(AllocError);
        }
        let pair = Applied { policy, object };
        let pairs = self.pairs.with_pair(alloc, place, pair)?;
        Ok(Links {
            pairs,
            next: place + 1,
        })
    }

    /// Whether the policy is applied to the object. It takes no memory, and looks at the policies of the object alone.
    pub fn is_applied(&self, policy: Oid, object: Oid) -> bool
        ensures { result ≡ list_any (λ a. same a.policy policy && same a.object object) self.now }
    {
        match self.pairs.by_object.bucket(&object.0) {
            Some(policies) => has_policy(policies, policy),
            None => false,
        }
    }

    /// Whether the policy is applied to any object. It takes no memory, and does not depend on how many objects these are.
    pub fn is_used(&self, policy: Oid) -> bool
        ensures { result ≡ list_any (λ a. same a.policy policy) self.now }
    {
        match self.pairs.by_policy.bucket(&policy.0) {
            Some(objects) => objects.len() > 0,
            None => false,
        }
    }

    /// The policies that are applied to the object, in the order in which they were. It looks at them and at a bounded number of others.
    pub fn of_object(&self, alloc: Global, object: Oid) -> Result<Oids, AllocError>
        ensures { IfOk result (λ ns. ns ≡ map (λ a. a.policy) (filter (λ a. same a.object object) self.now)) }
    {
        match self.pairs.by_object.bucket(&object.0) {
            Some(policies) => {
                let all = values(alloc, policies)?;
                Ok(all)
            }
            None => Ok(Items::new(alloc)),
        }
    }

    /// The policy no longer on the object; where it isn't, all stays. It looks at the policies of the object and at a bounded number
    /// of others.
    pub fn remove(&self, alloc: Global, policy: Oid, object: Oid) -> Result<Links, AllocError>
        ensures { IfOk result (λ l. l
            ≡ filter (λ a. not (same a.policy policy && same a.object object)) self.now) }
    {
        let pairs = self.pairs.without_policy(alloc, policy, object)?;
        Ok(Links {
            pairs,
            next: self.next,
        })
    }

    /// No policy on the object any more, as where it is deleted. It looks at its policies and at a bounded number of others.
    pub fn without_object(&self, alloc: Global, object: Oid) -> Result<Links, AllocError>
        ensures { IfOk result (λ l. l ≡ filter (λ a. not (same a.object object)) self.now) }
    {
        let pairs = self.pairs.without_object(alloc, object)?;
        Ok(Links {
            pairs,
            next: self.next,
        })
    }
}
