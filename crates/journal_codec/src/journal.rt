//! The form of a journal's payloads, as those who keep, replay and begin journals ask for it.
ghost use Rattle.std.specs.Prelude.{IfOk};
ghost use Rattle.byte_codec.specs.Codecs.{Codec};
ghost use Rattle.byte_codec.specs.Payloads.{Encodes, Decoded};
ghost use Rattle.journal_keeper.specs.Recorded.{by_session};
ghost use Rattle.journal_replay.specs.declared.record.Record.TheVariants.{Changed};
ghost use Rattle.journal_codec.specs.Entries.{entry_codec};
ghost use Rattle.journal_codec.specs.Roots.{root_codec};
ghost use Rattle.journal_codec.specs.Recorded.{record_codec};

use crate::form::JournalForm;
use crate::{entry, record, root};
use byte_codec::stop::{DecodeStop, EncodeStop};
use cm_call::write::Write;
use desk_model::Entry;
use journal_keeper::EntryCode;
use journal_people::People;
use journal_replay::{JournalCode, Record, Root};
use journal_start::JournalWriting;
use std::alloc::{AllocError, Global};

impl EntryCode<Write> for JournalForm {
    ghost codec = { entry_codec };

    fn encode(alloc: Global, session: u32, entry: &Entry<Write>) -> Result<Vec<u8>, EncodeStop> {
        entry::encode_by(alloc, session, entry)
    }
}

impl JournalCode<Write, People> for JournalForm {
    ghost root_codec = { root_codec };

    ghost record_codec = { record_codec };

    fn read_root(alloc: Global, bytes: &[u8]) -> Result<Root<People>, DecodeStop> {
        root::decode(alloc, bytes)
    }

    fn read_record(alloc: Global, bytes: &[u8]) -> Result<Record<Write, People>, DecodeStop> {
        record::decode(alloc, bytes)
    }
}

// Neither a root nor people hold a stream, so that nothing stands in an archive, and memory alone can be wanted.
impl JournalWriting<Write, People> for JournalForm {
    fn write_root(alloc: Global, root: &Root<People>) -> Result<Vec<u8>, AllocError> {
        match root::encode(alloc, root) {
            Ok(bytes) => Ok(bytes),
            Err(_) => Err(AllocError),
        }
    }

    fn write_people(alloc: Global, people: &People) -> Result<Vec<u8>, AllocError> {
        match record::encode_people(alloc, people) {
            Ok(bytes) => Ok(bytes),
            Err(_) => Err(AllocError),
        }
    }
}
