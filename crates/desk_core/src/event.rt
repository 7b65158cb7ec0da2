//! Events and their answers.
use cm_base::number::Moment;
use cm_base::text::Text;
use std::alloc::{AllocError, AllocFailed};

/// A step of one session.
#[derive(Drop)]
pub enum Event<C, Q> {
    /// The session begins. It holds what the core began with.
    Enter {
        session: u32,
    },
    /// The session writes.
    Write {
        session: u32,
        user: Text,
        moment: Moment,
        call: C,
    },
    /// The session looks at the whole history.
    Look {
        session: u32,
    },
    /// The session asks at what it holds.
    Ask {
        session: u32,
        user: Text,
        question: Q,
    },
}

/// What a step did. The number is that of the version which the session then holds.
#[derive(Drop)]
pub enum Done<A> {
    Entered(u64),
    Wrote(A, u64),
    Looked(u64),
    Said(A, u64),
}

/// Why a step did nothing else than to let a session that writes hold the whole.
#[derive(Drop)]
pub enum CoreStop<X> {
    /// The session wasn't entered.
    Unknown,
    /// The session was entered before.
    Known,
    /// The machine refuses the write at the whole, or the question at what is held.
    Refused { cause: X, number: u64 },
    /// There was no memory. Nothing has changed.
    Memory,
}

impl<X> From<AllocError> for CoreStop<X> {
    ghost use Rattle.std.specs.Prelude.{◌≡◌};
    ghost use Rattle.desk_core.specs.declared.event.CoreStop.TheVariants.{Memory};

    ghost from_gives = { λ e r. r ≡ Memory };

    fn from(_error: AllocError) -> CoreStop<X> {
        CoreStop::Memory
    }
}

impl<X, T: Drop> From<AllocFailed<T>> for CoreStop<X> {
    ghost use Rattle.std.specs.Prelude.{◌≡◌};
    ghost use Rattle.desk_core.specs.declared.event.CoreStop.TheVariants.{Memory};

    ghost from_gives = { λ e r. r ≡ Memory };

    fn from(_error: AllocFailed<T>) -> CoreStop<X> {
        CoreStop::Memory
    }
}
