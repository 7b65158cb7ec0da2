//! Records, the payloads of a journal behind the first: entries, and other people.
ghost use Rattle.std.specs.Prelude.{◌≡◌, IfOk, OnOk};
ghost use Rattle.byte_codec.specs.Codecs.{Codec, Writes, Reads};
ghost use Rattle.byte_codec.specs.Marks.{begins};
ghost use Rattle.byte_codec.specs.Payloads.{Encodes, Decoded, Is};
ghost use Rattle.cm_call.specs.declared.write.Write.{Write};
ghost use Rattle.journal_people.specs.Told.{PeopleTold};
ghost use Rattle.journal_replay.specs.declared.record.Record.{Record};
ghost use Rattle.journal_replay.specs.declared.record.Record.TheVariants.{Changed};
ghost use Rattle.journal_codec.specs.Roots.{new_people_codec};
ghost use Rattle.journal_codec.specs.Recorded.{record_codec};

use crate::form::JournalForm;
use byte_codec::coded::Coded;
use byte_codec::reader::Reader;
use byte_codec::stop::{DecodeStop, EncodeStop};
use cm_call::write::Write;
use desk_model::Entry;
use journal_people::People;
use journal_replay::Record;
use std::alloc::Global;

// The byte before other people.
const PEOPLE_MARK: u8 = b'P';

fn begins(from: &Reader<'_>, mark: u8) -> bool
    ensures { result ≡ begins mark from.now }
{
    match from.left() {
        [] => false,
        [byte, ..] => *byte == mark,
    }
}

fn write_people(people: &People, out: &mut Vec<u8>) -> Result<(), EncodeStop>
    ensures { OnOk result (Writes new_people_codec people.now out.old.items out.new.items) }
{
    out.push(PEOPLE_MARK)?;
    people.write(out)?;
    Ok(())
}

fn read_people(alloc: Global, from: &mut Reader<'_>) -> Result<People, DecodeStop>
    ensures { Reads new_people_codec result from.old from.new }
{
    match from.front(1) {
        Some(mark) => {
            if mark == "P".as_bytes() {
                <People as Coded<JournalForm>>::read(alloc, from)
            } else {
                Err(DecodeStop::NotAnEntry)
            }
        }
        None => Err(DecodeStop::NotAnEntry),
    }
}

impl Coded<JournalForm> for Record<Write, People> {
    ghost codec = { record_codec };

    fn write(&self, out: &mut Vec<u8>) -> Result<(), EncodeStop> {
        match self {
            Record::Written(entry) => entry.write(out),
            Record::Changed(people) => write_people(people, out),
        }
    }

    fn read(alloc: Global, from: &mut Reader<'_>) -> Result<Record<Write, People>, DecodeStop> {
        if begins(from, PEOPLE_MARK) {
            let people = read_people(alloc, from)?;
            Ok(Record::Changed(people))
        } else {
            let entry = <Entry<Write> as Coded<JournalForm>>::read(alloc, from)?;
            Ok(Record::Written(entry))
        }
    }
}

/// The encoding of a record.
pub fn encode(alloc: Global, told: &Record<Write, People>) -> Result<Vec<u8>, EncodeStop>
    ensures { IfOk result (λ v. Encodes record_codec told.now v.items) }
{
    byte_codec::payload::encode::<JournalForm, Record<Write, People>>(alloc, told)
}

/// The encoding of the record that tells these people.
pub fn encode_people(alloc: Global, people: &People) -> Result<Vec<u8>, EncodeStop>
    ensures { IfOk result (λ v. Encodes record_codec (Changed people.now) v.items) }
{
    let mut out = Vec::new(alloc);
    write_people(people, &mut out)?;
    Ok(out)
}

/// The record that these bytes encode.
pub fn decode(alloc: Global, bytes: &[u8]) -> Result<Record<Write, People>, DecodeStop>
    // What is decoded is encoded so, and NotAnEntry comes only where no record is.
    ensures exact { Decoded record_codec result bytes.now }
    // What was encoded is decoded, unless memory runs out.
    ensures again { (r : Record Write PeopleTold) → Encodes record_codec r bytes.now → Is r result }
{
    byte_codec::payload::decode::<JournalForm, Record<Write, People>>(alloc, bytes)
}
