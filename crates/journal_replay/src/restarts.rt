//! Machines whose state can be made again from a journal.
ghost use Rattle.std.specs.Prelude.{◌≡◌, IfOk};

use crate::record::Root;
use desk_model::Machine;
use std::alloc::{AllocError, Global};

/// A machine whose first state a journal's root tells, and that goes on with other people.
pub trait Restarts<P>: Machine {
    ghost use Rattle.journal_replay.specs.declared.record.Root.{Root};

    /// The state of a root.
    ghost opening: { Root P → Self.State };

    /// The state, with other people from here on.
    ghost adopt: { Self.State → P → Self.State };

    fn opening(alloc: Global, root: &Root<P>) -> Result<Self::State, AllocError>
        ensures { IfOk result (λ s. s ≡ opening root.now) };

    fn adopt(alloc: Global, state: &Self::State, people: &P) -> Result<Self::State, AllocError>
        ensures { IfOk result (λ s. s ≡ adopt state.now people.now) };
}
