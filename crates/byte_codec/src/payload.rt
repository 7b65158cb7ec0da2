//! Payloads: the bytes of one value.
ghost use Rattle.std.specs.Prelude.{◌≡◌, ℕ, List, Result, length, IfOk};
ghost use Rattle.std.specs.Arc.{arc_value};
ghost use Rattle.archive.specs.Extents.{Stands};
ghost use Rattle.byte_codec.specs.declared.stop.DecodeStop.{DecodeStop};
ghost use Rattle.byte_codec.specs.Payloads.{Encodes, Decoded, Is};

use crate::coded::Coded;
use crate::reader::Reader;
use crate::stop::{DecodeStop, EncodeStop};
use archive::Archive;
use std::alloc::Global;
use std::sync::Arc;

/// The encoding of a value.
pub fn encode<F, T: Coded<F>>(alloc: Global, value: &T) -> Result<Vec<u8>, EncodeStop>
    ensures { IfOk result (λ v. Encodes T.codec value.now v.items) }
{
    let mut out = Vec::new(alloc);
    value.write(&mut out)?;
    Ok(out)
}

// The value whose code is all that is left.
fn decode_all<F, T: Coded<F> + Drop>(alloc: Global, from: &mut Reader<'_>) -> Result<T, DecodeStop>
    ensures { Decoded T.codec result from.old }
{
    match T::read(alloc, from) {
        Ok(value) => match from.byte() {
            None => Ok(value),
            Some(_) => Err(DecodeStop::NotAnEntry),
        },
        Err(stop) => Err(stop),
    }
}

/// The value that these bytes encode.
pub fn decode<F, T: Coded<F> + Drop>(alloc: Global, bytes: &[u8]) -> Result<T, DecodeStop>
    // What is decoded is encoded so, and NotAnEntry comes only where no value is.
    ensures exact { Decoded T.codec result bytes.now }
    // What was encoded is decoded, unless memory runs out.
    ensures again { (x : T) → Encodes T.codec x bytes.now → Is x result }
{
    let mut from = Reader::new(bytes);
    decode_all::<F, T>(alloc, &mut from)
}

/// The value that a payload encodes which stands in an archive too, from this place on. Streams that are not small stay there.
pub fn decode_standing<F, T: Coded<F> + Drop>(
    alloc: Global,
    payload: &Arc<Vec<u8>>,
    archive: Arc<Archive>,
    place: u64,
) -> Result<T, DecodeStop>
    requires { Stands (arc_value archive) place (length payload.now.value.items) payload.now.value.items }
    ensures exact { Decoded T.codec result payload.now.value.items }
    ensures again { (x : T) → Encodes T.codec x payload.now.value.items → Is x result }
{
    let mut from = Reader::standing(payload, archive, place);
    decode_all::<F, T>(alloc, &mut from)
}

/// What decodes the encoding of a value exactly gives this value again, unless memory runs out; so no bytes are the encoding of two values.
pub fn decoding_undoes_encoding<F, T: Coded<F>>()
    ensures again { (x : T) (bytes : List ℕ) (r : Result T DecodeStop) → Encodes T.codec x bytes
        → Decoded T.codec r bytes → Is x r }
    ensures one { (x y : T) (bytes : List ℕ) → Encodes T.codec x bytes → Encodes T.codec y bytes → y ≡ x }
{}
