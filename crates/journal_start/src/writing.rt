//! The encoding of what a run puts first.
ghost use Rattle.std.specs.Prelude.{IfOk};
ghost use Rattle.byte_codec.specs.Payloads.{Encodes};
ghost use Rattle.journal_replay.specs.declared.record.Record.TheVariants.{Changed};

use journal_replay::{JournalCode, Root};
use std::alloc::{AllocError, Global};

/// The encoding of what a run puts first, in a journal of calls `C` and people `P`.
pub trait JournalWriting<C, P>: JournalCode<C, P> {
    /// The payload of a root.
    fn write_root(alloc: Global, root: &Root<P>) -> Result<Vec<u8>, AllocError>
        ensures { IfOk result (λ v. Encodes Self.root_codec root.now v.items) };

    /// The payload of other people.
    fn write_people(alloc: Global, people: &P) -> Result<Vec<u8>, AllocError>
        ensures { IfOk result (λ v. Encodes Self.record_codec (Changed people.now) v.items) };
}
