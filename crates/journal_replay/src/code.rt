//! The encoding of a journal's payloads.
ghost use Rattle.byte_codec.specs.Payloads.{Decoded};

use crate::record::{Record, Root};
use byte_codec::stop::DecodeStop;
use std::alloc::Global;

/// The encoding of the payloads of a journal of calls `C` and people `P`.
pub trait JournalCode<C, P> {
    ghost use Rattle.byte_codec.specs.Codecs.{Codec};
    ghost use Rattle.journal_replay.specs.declared.record.Record.{Record};
    ghost use Rattle.journal_replay.specs.declared.record.Root.{Root};

    /// The encoding of the first payload.
    ghost root_codec: { Codec (Root P) };

    /// That of every other.
    ghost record_codec: { Codec (Record C P) };

    /// What the first payload tells.
    fn read_root(alloc: Global, bytes: &[u8]) -> Result<Root<P>, DecodeStop>
        ensures { Decoded root_codec result bytes.now };

    /// What another payload tells.
    fn read_record(alloc: Global, bytes: &[u8]) -> Result<Record<C, P>, DecodeStop>
        ensures { Decoded record_codec result bytes.now };
}
