//! A log that keeps its older states.
ghost use Rattle.std.specs.Prelude.{◌≡◌, ◌≤◌, List, [], ◌∷◌, ◌++◌, find, map, length, slice_get, Some, IfOk, MatchOption};
ghost use Rattle.std.specs.Option.{option_copied};
ghost use Rattle.cm_map.specs.Rests.{rest};
ghost use Rattle.cmis_spec.specs.Seen.{is_deletion, is_deletion_of};
ghost use Rattle.cm_log.specs.Deletions.{AreDeletions, is_first_deletion};

use cm_base::log::{Change, ChangeKind};
use cm_base::number::Oid;
use cm_map::iter::Iter;
use cm_map::map::Map;
use cm_map::sequence::Sequence;
use std::alloc::{AllocError, Global};
use std::marker::Model;

/// The events in the order in which they came, seen as their list, with an index of the deletions among them. A longer log leaves the
/// old one as it was.
#[derive(Drop)]
pub struct Log {
    events: Sequence<Change>,
    // The place of the first deletion of each object that was deleted, under its number.
    deletions: Map<u64, u64>,
}

impl Model for Log {
    ghost use Rattle.std.specs.Prelude.{List};
    ghost use Rattle.cm_base.specs.declared.log.Change.{Change};
    ghost use Rattle.cm_log.specs.Deletions.{AreDeletions};

    ghost Value = { List Change };

    ghost view = { λ s. s.events };

    ghost invariant = { λ s. AreDeletions s.deletions s.events };
}

fn is_deletion(kind: ChangeKind) -> bool
    ensures { result ≡ is_deletion kind }
{
    match kind {
        ChangeKind::Deleted => true,
        _ => false,
    }
}

impl Log {
    /// The log without events, which takes no memory.
    pub fn empty(alloc: Global) -> Log
        ensures { result ≡ [] }
    {
        Log {
            events: Sequence::empty(alloc),
            deletions: Map::empty(alloc),
        }
    }

    /// The number of events, which is the number of the last one.
    pub fn len(&self) -> u64
        ensures { result ≡ length self.now }
    {
        self.events.len()
    }

    /// The event at a place, counted from 0; none exactly from the length on. An event's number is its place and one. It takes no
    /// memory, and compares about as many places as the length has binary digits.
    pub fn get(&self, place: u64) -> Option<&Change>
        ensures { MatchOption result (length self.now ≤ place) (λ e. slice_get self.now place ≡ Some e.now) }
    {
        self.events.get(place)
    }

    /// The first deletion of the object that has this number. It takes no memory, and compares about as many numbers and places as the
    /// length has binary digits.
    pub fn deletion_of(&self, n: Oid) -> Option<&Change>
        ensures { option_copied result ≡ find (is_deletion_of n) self.now }
    {
        match self.deletions.get(&n.0) {
            Some(place) => self.events.get(*place),
            None => None,
        }
    }

    // Whether the event is a deletion, and its object has none in the log.
    fn is_first_deletion(&self, event: &Change) -> bool
        ensures { result ≡ is_first_deletion self.now event.now }
    {
        is_deletion(event.kind) && self.deletions.get(&event.object.0).is_none()
    }

    // The places of the deletions in the log with this event at its end.
    fn deletions_with(&self, alloc: Global, event: &Change) -> Result<Map<u64, u64>, AllocError>
        ensures { IfOk result (λ places. AreDeletions places (self.now ++ event.now ∷ [])) }
    {
        if self.is_first_deletion(event) {
            self.deletions
                .with(alloc, event.object.0, self.events.len())
        } else {
            self.deletions.share(alloc)
        }
    }

    /// The log with one event more at its end.
    pub fn note(&self, alloc: Global, event: Change) -> Result<Log, AllocError>
        ensures { IfOk result (λ log. log ≡ self.now ++ event ∷ []) }
    {
        let deletions = self.deletions_with(alloc, &event)?;
        let events = self.events.with_last(alloc, event)?;
        Ok(Log { events, deletions })
    }

    /// The same log once more, by sharing.
    pub fn share(&self, alloc: Global) -> Result<Log, AllocError>
        ensures { IfOk result (λ log. log ≡ self.now) }
    {
        let events = self.events.share(alloc)?;
        let deletions = self.deletions.share(alloc)?;
        Ok(Log { events, deletions })
    }

    /// The events in order, each behind its place; no memory is taken.
    pub fn iter(&self) -> Iter<'_, u64, Change>
        ensures { map (λ e. e.1) (rest result) ≡ self.now }
    {
        self.events.iter()
    }
}
