//! Snapshots: versions that are shared and stay as they are.
ghost use Rattle.std.specs.Prelude.{◌≡◌, ◌≤◌, length, MatchOption, Some, slice_get};
ghost use Rattle.desk_model.specs.Halts.{Tells};
ghost use Rattle.desk_model.specs.Histories.{state_of};

use crate::entry::Entry;
use crate::machine::{Halt, Machine};
use crate::version::Version;
use cm_base::text::Text;
use std::alloc::Global;
use std::marker::Model;
use std::sync::Arc;

/// A version that stays as it is, whatever is written after it.
#[derive(Drop)]
pub struct Snapshot<M: Machine> {
    pub version: Arc<Version<M>>,
}

impl<M: Machine> Model for Snapshot<M> {
    ghost use Rattle.std.specs.Arc.{arc_value};
    ghost use Rattle.desk_model.specs.Histories.{History};

    ghost Value = { History M.State M.Call };

    ghost view = { λ s. arc_value s.version };
}

impl<M: Machine> Snapshot<M> {
    /// The journal's length. It takes no memory.
    pub fn len(&self) -> u64
        ensures { result ≡ length self.now.journal }
    {
        self.version.len()
    }

    /// The entry at a place of the journal, none exactly from its length on. It takes no memory.
    pub fn entry(&self, place: u64) -> Option<&Entry<M::Call>>
        ensures { MatchOption result (length self.now.journal ≤ place) (λ e. slice_get self.now.journal place
            ≡ Some e.now) }
    {
        self.version.entry(place)
    }

    /// The state's number. It takes no memory.
    pub fn number(&self) -> u64
        ensures { result ≡ M.number (state_of M.next self.now) }
    {
        self.version.number()
    }

    /// The state. It takes no memory.
    pub fn state(&self) -> &M::State
        ensures { result.now ≡ state_of M.next self.now }
    {
        self.version.state()
    }

    /// The machine's answer to a user's question at this version.
    pub fn answer(
        &self,
        alloc: Global,
        user: &Text,
        question: &M::Question,
    ) -> Result<M::Shown, Halt<M::Cause>>
        ensures { Tells (M.answer (state_of M.next self.now) user.now question.now) result }
    {
        M::answer(alloc, self.version.state(), user, question)
    }
}
