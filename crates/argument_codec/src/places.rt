//! Addressed objects.
ghost use Rattle.std.specs.Prelude.{OnOk};
ghost use Rattle.byte_codec.specs.Codecs.{Codec, Writes, Reads};
ghost use Rattle.argument_codec.specs.Places.{place};

use crate::form::{ArgumentForm, put, take};
use byte_codec::coded::Coded;
use byte_codec::reader::Reader;
use byte_codec::stop::{DecodeStop, EncodeStop};
use call_parts::place::Place;
use std::alloc::Global;

impl Coded<ArgumentForm> for Place {
    ghost codec = { place };

    fn write(&self, out: &mut Vec<u8>) -> Result<(), EncodeStop> {
        match self {
            Place::Id(id) => {
                out.push(0)?;
                put(id, out)?;
            }
            Place::Path(names) => {
                out.push(1)?;
                put(names, out)?;
            }
        }
        Ok(())
    }

    fn read(alloc: Global, from: &mut Reader<'_>) -> Result<Place, DecodeStop> {
        match from.byte() {
            Some(0) => {
                let id = take(alloc, from)?;
                Ok(Place::Id(id))
            }
            Some(1) => {
                let names = take(alloc, from)?;
                Ok(Place::Path(names))
            }
            _ => Err(DecodeStop::NotAnEntry),
        }
    }
}
