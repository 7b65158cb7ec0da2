//! Calls: their fields one after the other.
ghost use Rattle.std.specs.Prelude.{OnOk};
ghost use Rattle.byte_codec.specs.Codecs.{Codec, Writes, Reads};
ghost use Rattle.call_codec.specs.Calls.{update, bulk_update};

use crate::form::CallForm;
use argument_codec::form::{put, put_five, put_four, take};
use bulk_parts::writes::BulkUpdate;
use byte_codec::coded::Coded;
use byte_codec::reader::Reader;
use byte_codec::stop::{DecodeStop, EncodeStop};
use call_parts::changes::UpdateProperties;
use std::alloc::Global;

impl Coded<CallForm> for UpdateProperties {
    ghost codec = { update };

    fn write(&self, out: &mut Vec<u8>) -> Result<(), EncodeStop> {
        put(&self.place, out)?;
        put_five(
            &self.succinct,
            &self.properties,
            &self.token,
            &self.add_secondary,
            &self.remove_secondary,
            out,
        )?;
        Ok(())
    }

    fn read(alloc: Global, from: &mut Reader<'_>) -> Result<UpdateProperties, DecodeStop> {
        let (place, (succinct, (properties, (token, (add_secondary, remove_secondary))))) = take(
            alloc, from,
        )?;
        Ok(UpdateProperties {
            place,
            succinct,
            properties,
            token,
            add_secondary,
            remove_secondary,
        })
    }
}

impl Coded<CallForm> for BulkUpdate {
    ghost codec = { bulk_update };

    fn write(&self, out: &mut Vec<u8>) -> Result<(), EncodeStop> {
        put_four(
            &self.properties,
            &self.objects,
            &self.add_secondary,
            &self.remove_secondary,
            out,
        )?;
        Ok(())
    }

    fn read(alloc: Global, from: &mut Reader<'_>) -> Result<BulkUpdate, DecodeStop> {
        let (properties, (objects, (add_secondary, remove_secondary))) = take(alloc, from)?;
        Ok(BulkUpdate {
            properties,
            objects,
            add_secondary,
            remove_secondary,
        })
    }
}
