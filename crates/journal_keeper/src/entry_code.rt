//! The encoding of entries.
ghost use Rattle.std.specs.Prelude.{IfOk};
ghost use Rattle.byte_codec.specs.Payloads.{Encodes};
ghost use Rattle.journal_keeper.specs.Recorded.{by_session};

use byte_codec::stop::EncodeStop;
use desk_model::Entry;
use std::alloc::Global;

/// The encoding of the entries of calls `C` as payloads of a journal.
pub trait EntryCode<C> {
    ghost use Rattle.byte_codec.specs.Codecs.{Codec};
    ghost use Rattle.desk_model.specs.declared.entry.Entry.{Entry};

    /// The bytes of each entry that fits. No two entries have the same.
    ghost codec: { Codec (Entry C) };

    /// The bytes of the entry, made by the session of this number.
    fn encode(alloc: Global, session: u32, entry: &Entry<C>) -> Result<Vec<u8>, EncodeStop>
        ensures { IfOk result (λ v. Encodes codec (by_session session entry.now) v.items) };
}
