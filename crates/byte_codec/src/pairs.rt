//! Values one after the other.
ghost use Rattle.std.specs.Prelude.{OnOk};
ghost use Rattle.byte_codec.specs.Codecs.{Codec, Writes, Reads};
ghost use Rattle.byte_codec.specs.Parts.{both};

use crate::coded::Coded;
use crate::reader::Reader;
use crate::stop::{DecodeStop, EncodeStop};
use std::alloc::Global;

impl<F, A: Coded<F> + Drop, B: Coded<F> + Drop> Coded<F> for (A, B) {
    ghost codec = { both A.codec B.codec };

    fn write(&self, out: &mut Vec<u8>) -> Result<(), EncodeStop> {
        self.0.write(out)?;
        self.1.write(out)?;
        Ok(())
    }

    fn read(alloc: Global, from: &mut Reader<'_>) -> Result<(A, B), DecodeStop> {
        let first = A::read(alloc, from)?;
        let second = B::read(alloc, from)?;
        Ok((first, second))
    }
}
