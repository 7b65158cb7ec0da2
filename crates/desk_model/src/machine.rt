//! Machines: what steps from state to state by entries, and answers questions.
ghost use Rattle.std.specs.Prelude.{◌≡◌, ℕ, List, Result};
ghost use Rattle.desk_model.specs.declared.entry.Entry.{Entry};
ghost use Rattle.desk_model.specs.Halts.{Tells};

use crate::entry::Entry;
use cm_base::text::Text;
use std::alloc::{AllocError, AllocFailed, Global};

/// Why a machine gave no answer: it refuses, or there was no memory.
#[derive(Drop)]
pub enum Halt<X> {
    Refused(X),
    Memory,
}

/// Why a write wasn't made: the machine refuses it at a state with this number, the number that was asked for
/// is ahead of the state's number, there was no memory, or it could not be kept.
#[derive(Drop)]
pub enum Stop<X> {
    Refused { cause: X, number: u64 },
    Ahead { number: u64 },
    Memory,
    /// The keeper of the desk's journal failed, in this call or before it.
    Fault,
}

/// A machine. Its step, its answers and the number of a state are functions; only want of memory is left free.
pub trait Machine {
    type State: Drop;

    type Call: Drop;

    type Question: Drop;

    type Shown: Drop;

    type Cause: Drop;

    /// The state after an entry and what is shown of it, or why it is refused.
    ghost next: { Self.State → Entry Self.Call → Result (Self.State × Self.Shown) Self.Cause };

    /// What is shown of a user's question, or why it is refused.
    ghost answer: { Self.State → List ℕ → Self.Question → Result Self.Shown Self.Cause };

    /// The number of a state.
    ghost number: { Self.State → ℕ };

    /// Makes the step of an entry. The state stays.
    fn next(
        alloc: Global,
        state: &Self::State,
        entry: &Entry<Self::Call>,
    ) -> Result<(Self::State, Self::Shown), Halt<Self::Cause>>
        ensures { Tells (next state.now entry.now) result };

    /// Answers a user's question at a state.
    fn answer(
        alloc: Global,
        state: &Self::State,
        user: &Text,
        question: &Self::Question,
    ) -> Result<Self::Shown, Halt<Self::Cause>>
        ensures { Tells (answer state.now user.now question.now) result };

    /// The number of a state. It takes no memory.
    fn number(state: &Self::State) -> u64
        ensures { result ≡ number state.now };
}

impl<X> From<AllocError> for Halt<X> {
    ghost use Rattle.std.specs.Prelude.{◌≡◌};
    ghost use Rattle.desk_model.specs.declared.machine.Halt.TheVariants.{Memory};

    ghost from_gives = { λ e r. r ≡ Memory };

    fn from(_error: AllocError) -> Halt<X> {
        Halt::Memory
    }
}

impl<X, T: Drop> From<AllocFailed<T>> for Halt<X> {
    ghost use Rattle.std.specs.Prelude.{◌≡◌};
    ghost use Rattle.desk_model.specs.declared.machine.Halt.TheVariants.{Memory};

    ghost from_gives = { λ e r. r ≡ Memory };

    fn from(_error: AllocFailed<T>) -> Halt<X> {
        Halt::Memory
    }
}
