//! Entries.
ghost use Rattle.std.specs.Prelude.{IfOk, OnOk};
ghost use Rattle.byte_codec.specs.Codecs.{Codec, Writes, Reads};
ghost use Rattle.byte_codec.specs.Payloads.{Encodes, Decoded, Is};
ghost use Rattle.desk_model.specs.declared.entry.Entry.{Entry};
ghost use Rattle.cm_call.specs.declared.write.Write.{Write};
ghost use Rattle.journal_keeper.specs.Recorded.{by_session};
ghost use Rattle.journal_replay.specs.declared.record.Record.TheVariants.{Written};
ghost use Rattle.journal_codec.specs.Entries.{entry_codec};
ghost use Rattle.journal_codec.specs.Recorded.{record_codec};

use crate::form::JournalForm;
use argument_codec::form::put_four;
use byte_codec::coded::Coded;
use byte_codec::reader::Reader;
use byte_codec::stop::{DecodeStop, EncodeStop};
use cm_call::write::Write;
use desk_model::Entry;
use std::alloc::Global;
use write_codec::form::{put_write, take_written};

// Puts the code of an entry, made by the session of this number, behind what is there.
fn put_by(session: u32, entry: &Entry<Write>, out: &mut Vec<u8>) -> Result<(), EncodeStop>
    ensures { OnOk result (Writes entry_codec (by_session session entry.now) out.old.items out.new.items) }
{
    put_four(&session, &entry.serial, &entry.user, &entry.moment, out)?;
    put_write(&entry.call, out)?;
    Ok(())
}

impl Coded<JournalForm> for Entry<Write> {
    ghost codec = { entry_codec };

    fn write(&self, out: &mut Vec<u8>) -> Result<(), EncodeStop> {
        put_by(self.session, self, out)
    }

    fn read(alloc: Global, from: &mut Reader<'_>) -> Result<Entry<Write>, DecodeStop> {
        let (session, (serial, (user, (moment, call)))) = take_written(alloc, from)?;
        Ok(Entry {
            session,
            serial,
            user,
            moment,
            call,
        })
    }
}

/// The encoding of an entry, made by the session of this number.
pub fn encode_by(alloc: Global, session: u32, entry: &Entry<Write>) -> Result<Vec<u8>, EncodeStop>
    ensures { IfOk result (λ v. Encodes entry_codec (by_session session entry.now) v.items) }
{
    let mut out = Vec::new(alloc);
    put_by(session, entry, &mut out)?;
    Ok(out)
}

/// The encoding of an entry, which is that of the record that tells it.
pub fn encode(alloc: Global, written: &Entry<Write>) -> Result<Vec<u8>, EncodeStop>
    ensures alone { IfOk result (λ v. Encodes entry_codec written.now v.items) }
    ensures as_record { IfOk result (λ v. Encodes record_codec (Written written.now) v.items) }
{
    let bytes = byte_codec::payload::encode::<JournalForm, Entry<Write>>(alloc, written)?;
    Ok(bytes)
}

/// The entry that these bytes encode.
pub fn decode(alloc: Global, bytes: &[u8]) -> Result<Entry<Write>, DecodeStop>
    // What is decoded is encoded so, and NotAnEntry comes only where no entry is.
    ensures exact { Decoded entry_codec result bytes.now }
    // What was encoded is decoded, unless memory runs out.
    ensures again { (e : Entry Write) → Encodes entry_codec e bytes.now → Is e result }
{
    byte_codec::payload::decode::<JournalForm, Entry<Write>>(alloc, bytes)
}
