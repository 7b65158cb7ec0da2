//! What has an encoding.
ghost use Rattle.std.specs.Prelude.{OnOk};
ghost use Rattle.byte_codec.specs.Codecs.{Codec, Writes, Reads};

use crate::reader::Reader;
use crate::stop::{DecodeStop, EncodeStop};
use std::alloc::Global;

/// What has an encoding in the form `F`. A crate that gives types of others an encoding has a form of its own.
pub trait Coded<F> {
    ghost use Rattle.byte_codec.specs.Codecs.{Codec};

    ghost codec: { Codec Self };

    /// Puts the code of this value behind what is there.
    fn write(&self, out: &mut Vec<u8>) -> Result<(), EncodeStop>
        ensures { OnOk result (Writes codec self.now out.old.items out.new.items) };

    /// Reads the value whose code stands at the front.
    fn read(alloc: Global, from: &mut Reader<'_>) -> Result<Self, DecodeStop>
        ensures { Reads codec result from.old from.new };
}
