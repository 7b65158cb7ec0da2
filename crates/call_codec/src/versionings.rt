//! Calls: their fields one after the other.
ghost use Rattle.std.specs.Prelude.{OnOk};
ghost use Rattle.byte_codec.specs.Codecs.{Codec, Writes, Reads};
ghost use Rattle.call_codec.specs.Calls.{check_out, cancel_check_out, check_in};

use crate::form::CallForm;
use argument_codec::form::{put, put_five, put_two, take};
use byte_codec::coded::Coded;
use byte_codec::reader::Reader;
use byte_codec::stop::{DecodeStop, EncodeStop};
use call_parts::versions::{CancelCheckOut, CheckIn, CheckOut};
use std::alloc::Global;

impl Coded<CallForm> for CheckOut {
    ghost codec = { check_out };

    fn write(&self, out: &mut Vec<u8>) -> Result<(), EncodeStop> {
        put_two(&self.place, &self.succinct, out)?;
        Ok(())
    }

    fn read(alloc: Global, from: &mut Reader<'_>) -> Result<CheckOut, DecodeStop> {
        let (place, succinct) = take(alloc, from)?;
        Ok(CheckOut { place, succinct })
    }
}

impl Coded<CallForm> for CancelCheckOut {
    ghost codec = { cancel_check_out };

    fn write(&self, out: &mut Vec<u8>) -> Result<(), EncodeStop> {
        put(&self.place, out)?;
        Ok(())
    }

    fn read(alloc: Global, from: &mut Reader<'_>) -> Result<CancelCheckOut, DecodeStop> {
        Ok(CancelCheckOut {
            place: take(alloc, from)?,
        })
    }
}

impl Coded<CallForm> for CheckIn {
    ghost codec = { check_in };

    fn write(&self, out: &mut Vec<u8>) -> Result<(), EncodeStop> {
        put(&self.place, out)?;
        put_five(
            &self.succinct,
            &self.major,
            &self.comment,
            &self.properties,
            &self.stream,
            out,
        )?;
        Ok(())
    }

    fn read(alloc: Global, from: &mut Reader<'_>) -> Result<CheckIn, DecodeStop> {
        let (place, (succinct, (major, (comment, (properties, stream))))) = take(alloc, from)?;
        Ok(CheckIn {
            place,
            succinct,
            major,
            comment,
            properties,
            stream,
        })
    }
}
