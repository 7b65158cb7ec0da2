//! The form in which writes are encoded.
ghost use Rattle.std.specs.Prelude.{OnOk};
ghost use Rattle.byte_codec.specs.Codecs.{Writes, Reads};

use byte_codec::coded::Coded;
use byte_codec::reader::Reader;
use byte_codec::stop::{DecodeStop, EncodeStop};
use std::alloc::Global;

/// The form in which writes are encoded.
pub struct WriteForm;

/// Puts the code of a write behind what is there.
pub fn put_write<T: Coded<WriteForm>>(write: &T, out: &mut Vec<u8>) -> Result<(), EncodeStop>
    ensures { OnOk result (Writes T.codec write.now out.old.items out.new.items) }
{
    write.write(out)
}

/// Reads what was written, the code of which stands at the front.
pub fn take_written<T: Coded<WriteForm>>(
    alloc: Global,
    from: &mut Reader<'_>,
) -> Result<T, DecodeStop>
    ensures { Reads T.codec result from.old from.new }
{
    T::read(alloc, from)
}
