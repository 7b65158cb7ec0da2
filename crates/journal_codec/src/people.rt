//! The people of a journal.
ghost use Rattle.std.specs.Prelude.{OnOk};
ghost use Rattle.byte_codec.specs.Codecs.{Codec, Writes, Reads};
ghost use Rattle.journal_codec.specs.Roots.{group_codec, people_codec};

use crate::form::JournalForm;
use byte_codec::coded::Coded;
use byte_codec::reader::Reader;
use byte_codec::stop::{DecodeStop, EncodeStop};
use cm_base::text::{Text, Texts};
use cm_base::user::{Group, Groups};
use journal_people::People;
use std::alloc::Global;

impl Coded<JournalForm> for Group {
    ghost codec = { group_codec };

    fn write(&self, out: &mut Vec<u8>) -> Result<(), EncodeStop> {
        <Text as Coded<JournalForm>>::write(&self.name, out)?;
        <Texts as Coded<JournalForm>>::write(&self.members, out)?;
        Ok(())
    }

    fn read(alloc: Global, from: &mut Reader<'_>) -> Result<Group, DecodeStop> {
        let (name, members) = <(Text, Texts) as Coded<JournalForm>>::read(alloc, from)?;
        Ok(Group { name, members })
    }
}

impl Coded<JournalForm> for People {
    ghost codec = { people_codec };

    fn write(&self, out: &mut Vec<u8>) -> Result<(), EncodeStop> {
        <Texts as Coded<JournalForm>>::write(self.names(), out)?;
        <Groups as Coded<JournalForm>>::write(self.groups(), out)?;
        Ok(())
    }

    fn read(alloc: Global, from: &mut Reader<'_>) -> Result<People, DecodeStop> {
        let (names, groups) = <(Texts, Groups) as Coded<JournalForm>>::read(alloc, from)?;
        match People::checked(names, groups) {
            Some(people) => Ok(people),
            None => Err(DecodeStop::NotAnEntry),
        }
    }
}
