//! Why entries are not kept.
ghost use Rattle.std.specs.Prelude.{◌≡◌, ◌≢◌};
ghost use Rattle.journal_keeper.specs.declared.lost.Lost.TheVariants.{Disk};

use byte_codec::stop::EncodeStop;
use std::alloc::{AllocError, AllocFailed};

/// Why entries are not kept.
#[derive(Clone, Copy, Debug, PartialEq, Eq, Drop)]
pub enum Lost {
    /// The disk has failed.
    Disk,
    /// The disk had failed before.
    Before,
    /// The bytes of a stream that stands in a file could not be read.
    Unread,
    /// The number of a session is too great for a journal.
    Session,
    Memory,
}

impl From<EncodeStop> for Lost {
    ghost from_gives = { λ _ e. e ≢ Disk };

    fn from(stop: EncodeStop) -> Lost {
        match stop {
            EncodeStop::Unread(_) => Lost::Unread,
            EncodeStop::Memory => Lost::Memory,
        }
    }
}

impl From<AllocError> for Lost {
    ghost from_gives = { λ _ e. e ≢ Disk };

    fn from(_: AllocError) -> Lost {
        Lost::Memory
    }
}

impl<T: Drop> From<AllocFailed<T>> for Lost {
    ghost from_gives = { λ _ e. e ≢ Disk };

    fn from(_: AllocFailed<T>) -> Lost {
        Lost::Memory
    }
}
