//! The form in which what calls hold is encoded.
ghost use Rattle.std.specs.Prelude.{OnOk};
ghost use Rattle.byte_codec.specs.Codecs.{Writes, Reads};
ghost use Rattle.byte_codec.specs.Parts.{both};

use byte_codec::coded::Coded;
use byte_codec::reader::Reader;
use byte_codec::stop::{DecodeStop, EncodeStop};
use std::alloc::Global;

/// The form in which what calls hold is encoded.
pub struct ArgumentForm;

/// Puts the code of a value behind what is there.
pub fn put<T: Coded<ArgumentForm>>(value: &T, out: &mut Vec<u8>) -> Result<(), EncodeStop>
    ensures { OnOk result (Writes T.codec value.now out.old.items out.new.items) }
{
    value.write(out)
}

/// Puts two values, one after the other.
pub fn put_two<A: Coded<ArgumentForm>, B: Coded<ArgumentForm>>(
    a: &A,
    b: &B,
    out: &mut Vec<u8>,
) -> Result<(), EncodeStop>
    ensures { OnOk result (Writes (both A.codec B.codec) (a.now, b.now) out.old.items out.new.items) }
{
    put(a, out)?;
    put(b, out)?;
    Ok(())
}

/// Puts three values, one after the other.
pub fn put_three<A: Coded<ArgumentForm>, B: Coded<ArgumentForm>, C: Coded<ArgumentForm>>(
    a: &A,
    b: &B,
    c: &C,
    out: &mut Vec<u8>,
) -> Result<(), EncodeStop>
    ensures { OnOk result (Writes (both A.codec (both B.codec C.codec))
        (a.now, (b.now, c.now)) out.old.items out.new.items) }
{
    put(a, out)?;
    put_two(b, c, out)?;
    Ok(())
}

/// Puts four values, one after the other.
pub fn put_four<
    A: Coded<ArgumentForm>,
    B: Coded<ArgumentForm>,
    C: Coded<ArgumentForm>,
    D: Coded<ArgumentForm>,
>(a: &A, b: &B, c: &C, d: &D, out: &mut Vec<u8>) -> Result<(), EncodeStop>
    ensures { OnOk result (Writes (both A.codec (both B.codec (both C.codec D.codec)))
        (a.now, (b.now, (c.now, d.now))) out.old.items out.new.items) }
{
    put(a, out)?;
    put_three(b, c, d, out)?;
    Ok(())
}

/// Puts five values, one after the other.
pub fn put_five<
    A: Coded<ArgumentForm>,
    B: Coded<ArgumentForm>,
    C: Coded<ArgumentForm>,
    D: Coded<ArgumentForm>,
    E: Coded<ArgumentForm>,
>(a: &A, b: &B, c: &C, d: &D, e: &E, out: &mut Vec<u8>) -> Result<(), EncodeStop>
    ensures { OnOk result (Writes (both A.codec (both B.codec (both C.codec (both D.codec E.codec))))
        (a.now, (b.now, (c.now, (d.now, e.now)))) out.old.items out.new.items) }
{
    put(a, out)?;
    put_four(b, c, d, e, out)?;
    Ok(())
}

/// Reads the value whose code stands at the front.
pub fn take<T: Coded<ArgumentForm>>(alloc: Global, from: &mut Reader<'_>) -> Result<T, DecodeStop>
    ensures { Reads T.codec result from.old from.new }
{
    T::read(alloc, from)
}
