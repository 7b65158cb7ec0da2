//! The root of a journal, its first payload.
ghost use Rattle.std.specs.Prelude.{IfOk, OnOk};
ghost use Rattle.byte_codec.specs.Codecs.{Codec, Writes, Reads};
ghost use Rattle.byte_codec.specs.Payloads.{Encodes, Decoded, Is};
ghost use Rattle.journal_people.specs.Told.{PeopleTold};
ghost use Rattle.journal_replay.specs.declared.record.Root.{Root};
ghost use Rattle.journal_codec.specs.Roots.{root_codec, root_parts};

use crate::form::JournalForm;
use byte_codec::coded::Coded;
use byte_codec::reader::Reader;
use byte_codec::stop::{DecodeStop, EncodeStop};
use cm_base::number::Moment;
use journal_people::People;
use journal_replay::Root;
use std::alloc::Global;

fn read_parts(alloc: Global, from: &mut Reader<'_>) -> Result<Root<People>, DecodeStop>
    ensures { Reads root_parts result from.old from.new }
{
    let (moment, people) = <(Moment, People) as Coded<JournalForm>>::read(alloc, from)?;
    Ok(Root { moment, people })
}

impl Coded<JournalForm> for Root<People> {
    ghost codec = { root_codec };

    fn write(&self, out: &mut Vec<u8>) -> Result<(), EncodeStop> {
        out.extend_from_slice("CMISJRN1".as_bytes())?;
        <Moment as Coded<JournalForm>>::write(&self.moment, out)?;
        self.people.write(out)?;
        Ok(())
    }

    fn read(alloc: Global, from: &mut Reader<'_>) -> Result<Root<People>, DecodeStop> {
        match from.front(8) {
            Some(mark) => {
                if mark == "CMISJRN1".as_bytes() {
                    read_parts(alloc, from)
                } else {
                    Err(DecodeStop::NotAnEntry)
                }
            }
            None => Err(DecodeStop::NotAnEntry),
        }
    }
}

/// The encoding of a root.
pub fn encode(alloc: Global, root: &Root<People>) -> Result<Vec<u8>, EncodeStop>
    ensures { IfOk result (λ v. Encodes root_codec root.now v.items) }
{
    byte_codec::payload::encode::<JournalForm, Root<People>>(alloc, root)
}

/// The root that these bytes encode.
pub fn decode(alloc: Global, bytes: &[u8]) -> Result<Root<People>, DecodeStop>
    // What is decoded is encoded so, and NotAnEntry comes only where no root is.
    ensures exact { Decoded root_codec result bytes.now }
    // What was encoded is decoded, unless memory runs out.
    ensures again { (r : Root PeopleTold) → Encodes root_codec r bytes.now → Is r result }
{
    byte_codec::payload::decode::<JournalForm, Root<People>>(alloc, bytes)
}
