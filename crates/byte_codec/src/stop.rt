//! Why a value is not encoded, and why bytes are not decoded.
ghost use Rattle.std.specs.Prelude.{◌≡◌};
ghost use Rattle.byte_codec.specs.declared.stop.DecodeStop.TheVariants.{Memory};
ghost use Rattle.byte_codec.specs.declared.stop.EncodeStop.TheVariants as encodings;

use archive::Unread;
use std::alloc::{AllocError, AllocFailed};

/// Why a value is not encoded.
#[derive(Debug, Drop)]
pub enum EncodeStop {
    /// A stream of it stands in an archive that didn't give its bytes. Only a read that failed gives such an answer.
    Unread(Unread),
    /// There was no memory.
    Memory,
}

impl From<AllocError> for EncodeStop {
    ghost from_gives = { λ _ e. e ≡ encodings.Memory };

    fn from(_e: AllocError) -> EncodeStop {
        EncodeStop::Memory
    }
}

impl<T: Drop> From<AllocFailed<T>> for EncodeStop {
    ghost from_gives = { λ _ e. e ≡ encodings.Memory };

    fn from(_e: AllocFailed<T>) -> EncodeStop {
        EncodeStop::Memory
    }
}

/// Why bytes are not decoded.
#[derive(Clone, Copy, Debug, PartialEq, Eq)]
pub enum DecodeStop {
    /// They are the code of no value.
    NotAnEntry,
    /// There was no memory.
    Memory,
}

impl From<AllocError> for DecodeStop {
    ghost from_gives = { λ _ e. e ≡ Memory };

    fn from(_e: AllocError) -> DecodeStop {
        DecodeStop::Memory
    }
}

impl<T: Drop> From<AllocFailed<T>> for DecodeStop {
    ghost from_gives = { λ _ e. e ≡ Memory };

    fn from(_e: AllocFailed<T>) -> DecodeStop {
        DecodeStop::Memory
    }
}
