//! What may be absent.
ghost use Rattle.std.specs.Prelude.{◌≡◌, OnOk};
ghost use Rattle.byte_codec.specs.Codecs.{Codec, Writes, Reads};
ghost use Rattle.byte_codec.specs.Parts.{optional};

use crate::coded::Coded;
use crate::reader::Reader;
use crate::stop::{DecodeStop, EncodeStop};
use std::alloc::Global;

impl<F, T: Coded<F> + Drop> Coded<F> for Option<T> {
    ghost codec = { optional T.codec };

    fn write(&self, out: &mut Vec<u8>) -> Result<(), EncodeStop> {
        match self {
            None => {
                out.push(0)?;
                Ok(())
            }
            Some(value) => {
                out.push(1)?;
                value.write(out)
            }
        }
    }

    fn read(alloc: Global, from: &mut Reader<'_>) -> Result<Option<T>, DecodeStop> {
        match from.byte() {
            Some(0) => Ok(None),
            Some(1) => {
                let value = T::read(alloc, from)?;
                Ok(Some(value))
            }
            _ => Err(DecodeStop::NotAnEntry),
        }
    }
}
