//! A refusal, or want of memory.
ghost use Rattle.std.specs.Prelude.{◌≡◌};
ghost use Rattle.cm_base.specs.declared.fail.Fail.TheVariants.{Refused, Memory};

use crate::cause::Cause;
use std::alloc::{AllocError, AllocFailed};

/// Why a call has no result.
#[derive(Drop)]
pub enum Fail {
    /// The call is refused for this cause.
    Refused(Cause),
    /// There was no memory.
    Memory,
}

impl From<Cause> for Fail {
    ghost from_gives = { λ c e. e ≡ Refused c };

    fn from(cause: Cause) -> Fail {
        Fail::Refused(cause)
    }
}

impl From<AllocError> for Fail {
    ghost from_gives = { λ _ e. e ≡ Memory };

    fn from(_e: AllocError) -> Fail {
        Fail::Memory
    }
}

impl<T: Drop> From<AllocFailed<T>> for Fail {
    ghost from_gives = { λ _ e. e ≡ Memory };

    fn from(_e: AllocFailed<T>) -> Fail {
        Fail::Memory
    }
}
