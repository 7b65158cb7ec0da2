//! Numbers, flags and moments.
ghost use Rattle.std.specs.Prelude.{◌≡◌, OnOk};
ghost use Rattle.byte_codec.specs.Codecs.{Codec, Writes, Reads};
ghost use Rattle.byte_codec.specs.Numbers.{number, small, signed};
ghost use Rattle.byte_codec.specs.Parts.{flag};
ghost use Rattle.byte_codec.specs.Base.{moment};

use crate::coded::Coded;
use crate::reader::Reader;
use crate::stop::{DecodeStop, EncodeStop};
use cm_base::number::Moment;
use std::alloc::Global;

/// Puts the eight bytes of a number, the most significant first.
#[tactic(auto, unfolding(crate::specs::Numbers::number_code))]
pub fn write_number(value: u64, out: &mut Vec<u8>) -> Result<(), EncodeStop>
    ensures { OnOk result (Writes number value out.old.items out.new.items) }
{
    out.extend_from_slice(&value.to_be_bytes())?;
    Ok(())
}

impl<F> Coded<F> for u64 {
    ghost codec = { number };

    fn write(&self, out: &mut Vec<u8>) -> Result<(), EncodeStop> {
        write_number(*self, out)
    }

    fn read(_alloc: Global, from: &mut Reader<'_>) -> Result<u64, DecodeStop> {
        from.number().ok_or(DecodeStop::NotAnEntry)
    }
}

impl<F> Coded<F> for u32 {
    ghost codec = { small };

    fn write(&self, out: &mut Vec<u8>) -> Result<(), EncodeStop> {
        write_number(*self as u64, out)
    }

    fn read(_alloc: Global, from: &mut Reader<'_>) -> Result<u32, DecodeStop> {
        match from.number() {
            Some(number) if number < 0x1_0000_0000 => Ok(number as u32),
            _ => Err(DecodeStop::NotAnEntry),
        }
    }
}

impl<F> Coded<F> for i64 {
    ghost codec = { signed };

    fn write(&self, out: &mut Vec<u8>) -> Result<(), EncodeStop> {
        write_number(self.cast_unsigned(), out)
    }

    fn read(_alloc: Global, from: &mut Reader<'_>) -> Result<i64, DecodeStop> {
        match from.number() {
            Some(number) => Ok(number.cast_signed()),
            None => Err(DecodeStop::NotAnEntry),
        }
    }
}

impl<F> Coded<F> for Moment {
    ghost codec = { moment };

    fn write(&self, out: &mut Vec<u8>) -> Result<(), EncodeStop> {
        <i64 as Coded<F>>::write(&self.0, out)
    }

    fn read(alloc: Global, from: &mut Reader<'_>) -> Result<Moment, DecodeStop> {
        let milliseconds = <i64 as Coded<F>>::read(alloc, from)?;
        Ok(Moment(milliseconds))
    }
}

impl<F> Coded<F> for bool {
    ghost codec = { flag };

    fn write(&self, out: &mut Vec<u8>) -> Result<(), EncodeStop> {
        match *self {
            false => out.push(0)?,
            true => out.push(1)?,
        }
        Ok(())
    }

    fn read(_alloc: Global, from: &mut Reader<'_>) -> Result<bool, DecodeStop> {
        match from.byte() {
            Some(0) => Ok(false),
            Some(1) => Ok(true),
            _ => Err(DecodeStop::NotAnEntry),
        }
    }
}
