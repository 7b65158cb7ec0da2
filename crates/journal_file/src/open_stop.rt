//! Why a journal isn't opened.
ghost use Rattle.std.specs.Prelude.{◌≡◌};
ghost use Rattle.journal_file.specs.declared.open_stop.OpenStop.TheVariants.{Fault, Memory};

use outside::Failed;
use std::alloc::{AllocError, AllocFailed};

/// Why a journal isn't opened.
#[derive(Clone, Copy, Debug, PartialEq, Eq, Drop)]
pub enum OpenStop {
    /// The disk has failed.
    Fault,
    /// So many whole records stand before an open gate behind which no whole payload stands, or nothing behind that.
    Damaged(u64),
    Memory,
}

impl From<Failed> for OpenStop {
    ghost from_gives = { λ _ e. e ≡ Fault };

    fn from(_: Failed) -> OpenStop {
        OpenStop::Fault
    }
}

impl From<AllocError> for OpenStop {
    ghost from_gives = { λ _ e. e ≡ Memory };

    fn from(_: AllocError) -> OpenStop {
        OpenStop::Memory
    }
}

impl<T: Drop> From<AllocFailed<T>> for OpenStop {
    ghost from_gives = { λ _ e. e ≡ Memory };

    fn from(_: AllocFailed<T>) -> OpenStop {
        OpenStop::Memory
    }
}
