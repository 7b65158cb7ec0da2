//! Calls: their fields one after the other.
ghost use Rattle.std.specs.Prelude.{OnOk};
ghost use Rattle.byte_codec.specs.Codecs.{Codec, Writes, Reads};
ghost use Rattle.call_codec.specs.Calls.{create_type, update_type, delete_type};

use crate::form::CallForm;
use argument_codec::form::{put, take};
use byte_codec::coded::Coded;
use byte_codec::reader::Reader;
use byte_codec::stop::{DecodeStop, EncodeStop};
use std::alloc::Global;
use type_change_parts::writes::{CreateType, DeleteType, UpdateType};

impl Coded<CallForm> for CreateType {
    ghost codec = { create_type };

    fn write(&self, out: &mut Vec<u8>) -> Result<(), EncodeStop> {
        put(&self.definition, out)?;
        Ok(())
    }

    fn read(alloc: Global, from: &mut Reader<'_>) -> Result<CreateType, DecodeStop> {
        Ok(CreateType {
            definition: take(alloc, from)?,
        })
    }
}

impl Coded<CallForm> for UpdateType {
    ghost codec = { update_type };

    fn write(&self, out: &mut Vec<u8>) -> Result<(), EncodeStop> {
        put(&self.definition, out)?;
        Ok(())
    }

    fn read(alloc: Global, from: &mut Reader<'_>) -> Result<UpdateType, DecodeStop> {
        Ok(UpdateType {
            definition: take(alloc, from)?,
        })
    }
}

impl Coded<CallForm> for DeleteType {
    ghost codec = { delete_type };

    fn write(&self, out: &mut Vec<u8>) -> Result<(), EncodeStop> {
        put(&self.type_id, out)?;
        Ok(())
    }

    fn read(alloc: Global, from: &mut Reader<'_>) -> Result<DeleteType, DecodeStop> {
        Ok(DeleteType {
            type_id: take(alloc, from)?,
        })
    }
}
