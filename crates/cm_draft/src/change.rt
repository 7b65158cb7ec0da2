//! The changes of which writes are made, but those of the filing. Each takes a draft and gives it back changed.
ghost use Rattle.std.specs.Prelude.{◌≡◌, ◌+◌, ◌<◌, ◌^◌, ◌++◌, IfOk, map, All, is_some, true};
ghost use Rattle.cmis_spec.specs.Repository.{object_at};
ghost use Rattle.cmis_spec.specs.Changes.{stepped, noted, with_object, edited};

use crate::draft::Draft;
use crate::made::{counted, given_up, objects_of, put_log};
use crate::told::with_objects;
use cm_base::access::{AccessList, Aces};
use cm_base::log::{Change, ChangeKind, Marks};
use cm_base::number::{Moment, Oid};
use cm_base::object::Object;
use cm_link::links::Links;
use cm_state::parts::Parts;
use std::alloc::{AllocError, Global};

// The applied pairs, with each of the policies on the object.
pub(crate) fn applied_with(
    alloc: Global,
    pairs: &Links,
    policies: &[Oid],
    object: Oid,
) -> Result<Links, AllocError>
    ensures { IfOk result (λ all. all ≡ pairs.now ++ map (λ p. record { policy = p; object = object }) policies.now) }
{
    let mut all = pairs.share(alloc)?;
    for policy in policies {
        all = all.apply(alloc, *policy, object)?;
    }
    Ok(all)
}

impl Draft {
    /// One step further, at this cost.
    pub fn stepped(self, cost: u64) -> Draft
        requires step { self.step + 1 < 2 ^ 64 }
        requires cost { self.cost + cost < 2 ^ 64 }
        ensures { result ≡ stepped self cost }
    {
        let parts = self.parts;
        Draft {
            parts: Parts {
                step: parts.step + 1,
                cost: parts.cost + cost,
                ..parts
            },
        }
    }

    /// An event at the end of the log.
    pub fn noted(
        self,
        alloc: Global,
        kind: ChangeKind,
        object: Oid,
        moment: Moment,
        readers: Marks,
    ) -> Result<Draft, AllocError>
        ensures { IfOk result (λ d. d ≡ noted self kind object moment readers) }
    {
        let event = Change {
            kind,
            object,
            moment,
            readers,
        };
        match self.parts().log().note(alloc, event) {
            Ok(log) => Ok(put_log(self, log)),
            Err(short) => Err(given_up(self, short)),
        }
    }

    /// A new object, with its access list and its policies. Its number is above those of all objects and lists.
    pub fn with_object(
        self,
        alloc: Global,
        object: Object,
        aces: Aces,
        policies: &[Oid],
    ) -> Result<Draft, AllocError>
        requires room { self.next + 1 < 2 ^ 64 }
        requires objects { All (λ x. x.id.0 < object.id.0) self.objects }
        requires access { All (λ l. l.at.0 < object.id.0) self.access }
        ensures { IfOk result (λ d. d ≡ with_object self object aces policies.now) }
    {
        let number = object.id;
        let objects = match objects_of(self.parts()).with_last(alloc, object) {
            Ok(objects) => objects,
            Err(short) => return Err(given_up(self, short)),
        };
        let placed = with_objects(alloc, self, objects, number)?;
        let listed = placed.with_list(alloc, AccessList { at: number, aces })?;
        let applied = listed.with_policies(alloc, number, policies)?;
        Ok(counted(applied))
    }

    /// The object in place of the one that has its number.
    pub fn edited(self, alloc: Global, object: Object) -> Result<Draft, AllocError>
        requires there { is_some (object_at self object.id) ≡ true }
        ensures { IfOk result (λ d. d ≡ edited self object.id (λ _. object)) }
    {
        let number = object.id;
        match objects_of(self.parts()).with_member(alloc, object) {
            Ok(objects) => with_objects(alloc, self, objects, number),
            Err(short) => Err(given_up(self, short)),
        }
    }
}
