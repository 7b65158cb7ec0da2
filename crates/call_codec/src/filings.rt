//! Calls: their fields one after the other.
ghost use Rattle.std.specs.Prelude.{OnOk};
ghost use Rattle.byte_codec.specs.Codecs.{Codec, Writes, Reads};
ghost use Rattle.call_codec.specs.Calls.{move_object, add_to_folder, remove_from_folder};

use crate::form::CallForm;
use argument_codec::form::{put_four, put_three, take};
use byte_codec::coded::Coded;
use byte_codec::reader::Reader;
use byte_codec::stop::{DecodeStop, EncodeStop};
use call_parts::changes::{AddToFolder, MoveObject, RemoveFromFolder};
use std::alloc::Global;

impl Coded<CallForm> for MoveObject {
    ghost codec = { move_object };

    fn write(&self, out: &mut Vec<u8>) -> Result<(), EncodeStop> {
        put_four(&self.place, &self.succinct, &self.source, &self.target, out)?;
        Ok(())
    }

    fn read(alloc: Global, from: &mut Reader<'_>) -> Result<MoveObject, DecodeStop> {
        let (place, (succinct, (source, target))) = take(alloc, from)?;
        Ok(MoveObject {
            place,
            succinct,
            source,
            target,
        })
    }
}

impl Coded<CallForm> for AddToFolder {
    ghost codec = { add_to_folder };

    fn write(&self, out: &mut Vec<u8>) -> Result<(), EncodeStop> {
        put_three(&self.place, &self.succinct, &self.folder, out)?;
        Ok(())
    }

    fn read(alloc: Global, from: &mut Reader<'_>) -> Result<AddToFolder, DecodeStop> {
        let (place, (succinct, folder)) = take(alloc, from)?;
        Ok(AddToFolder {
            place,
            succinct,
            folder,
        })
    }
}

impl Coded<CallForm> for RemoveFromFolder {
    ghost codec = { remove_from_folder };

    fn write(&self, out: &mut Vec<u8>) -> Result<(), EncodeStop> {
        put_three(&self.place, &self.succinct, &self.folder, out)?;
        Ok(())
    }

    fn read(alloc: Global, from: &mut Reader<'_>) -> Result<RemoveFromFolder, DecodeStop> {
        let (place, (succinct, folder)) = take(alloc, from)?;
        Ok(RemoveFromFolder {
            place,
            succinct,
            folder,
        })
    }
}
