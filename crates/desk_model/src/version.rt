//! Versions: an opening, a journal, and the state after it.
ghost use Rattle.std.specs.Prelude.{◌≡◌, ℕ, List, [], ◌∷◌, ◌++◌, length, ◌≤◌, IfOk, Result, Ok, MatchOption, slice_get, Some};
ghost use Rattle.desk_model.specs.Halts.{TellsSecond};
ghost use Rattle.desk_model.specs.Histories.{History, IsLegal, state_of, grown, shown_by};

use crate::entry::Entry;
use crate::machine::{Halt, Machine};
use cm_map::sequence::Sequence;
use std::alloc::{AllocError, Global};
use std::marker::Model;
use std::sync::Arc;

/// An opening, the entries since, and the state after them. The journal is legal, and the state is its replay.
#[derive(Drop)]
pub struct Version<M: Machine> {
    opening: Arc<M::State>,
    journal: Sequence<Entry<M::Call>>,
    state: Arc<M::State>,
}

impl<M: Machine> Model for Version<M> {
    ghost use Rattle.std.specs.Prelude.{◌≡◌};
    ghost use Rattle.std.specs.Arc.{arc_value};
    ghost use Rattle.desk_model.specs.Histories.{History, replay, IsLegal};

    ghost Value = { History M.State M.Call };

    ghost view = { λ v. record { opening = arc_value v.opening; journal = v.journal } };

    ghost invariant = { λ v. (arc_value v.state ≡ replay M.next (arc_value v.opening) v.journal)
        × IsLegal M.next (arc_value v.opening) v.journal };
}

impl<M: Machine> Version<M> {
    /// An empty journal over a state.
    pub fn opening(alloc: Global, state: M::State) -> Result<Version<M>, AllocError>
        ensures { IfOk result (λ v. v ≡ record { opening = state; journal = [] }) }
    {
        let opening = Arc::new(alloc, state)?;
        let state = Arc::try_clone(&opening)?;
        Ok(Version {
            opening,
            journal: Sequence::empty(alloc),
            state,
        })
    }

    /// The version with the entry at the end of its journal and what is shown of it, or the machine's refusal.
    /// This version stays as it is.
    pub fn next(
        &self,
        alloc: Global,
        entry: Entry<M::Call>,
    ) -> Result<(Version<M>, M::Shown), Halt<M::Cause>>
        ensures grown { IfOk result (λ r. r.0 ≡ grown self.now entry) }
        ensures told { TellsSecond (shown_by (M.next (state_of M.next self.now) entry)) result }
    {
        let (state, shown) = M::next(alloc, &*self.state, &entry)?;
        let journal = self.journal.with_last(alloc, entry)?;
        let version = Version {
            opening: Arc::try_clone(&self.opening)?,
            journal,
            state: Arc::new(alloc, state)?,
        };
        Ok((version, shown))
    }

    /// The journal is legal.
    pub fn lawful(&self)
        ensures { IsLegal M.next self.now.opening self.now.journal }
    {
        let _ = &self.journal;
    }

    /// The state's number. It takes no memory.
    pub fn number(&self) -> u64
        ensures { result ≡ M.number (state_of M.next self.now) }
    {
        M::number(&*self.state)
    }

    /// The journal's length. It takes no memory.
    pub fn len(&self) -> u64
        ensures { result ≡ length self.now.journal }
    {
        self.journal.len()
    }

    /// The entry at a place of the journal, none exactly from its length on. It takes no memory.
    pub fn entry(&self, place: u64) -> Option<&Entry<M::Call>>
        ensures { MatchOption result (length self.now.journal ≤ place) (λ e. slice_get self.now.journal place
            ≡ Some e.now) }
    {
        self.journal.get(place)
    }

    /// The state after the journal. It takes no memory.
    pub fn state(&self) -> &M::State
        ensures { result.now ≡ state_of M.next self.now }
    {
        &*self.state
    }
}
