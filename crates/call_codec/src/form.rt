//! The form in which calls are encoded.
ghost use Rattle.std.specs.Prelude.{OnOk};
ghost use Rattle.byte_codec.specs.Codecs.{Writes, Reads};

use byte_codec::coded::Coded;
use byte_codec::reader::Reader;
use byte_codec::stop::{DecodeStop, EncodeStop};
use std::alloc::Global;

/// The form in which calls are encoded.
pub struct CallForm;

/// Puts the code of a call behind what is there.
pub fn put_call<T: Coded<CallForm>>(call: &T, out: &mut Vec<u8>) -> Result<(), EncodeStop>
    ensures { OnOk result (Writes T.codec call.now out.old.items out.new.items) }
{
    call.write(out)
}

/// Reads the call whose code stands at the front.
pub fn take_call<T: Coded<CallForm>>(alloc: Global, from: &mut Reader<'_>) -> Result<T, DecodeStop>
    ensures { Reads T.codec result from.old from.new }
{
    T::read(alloc, from)
}
