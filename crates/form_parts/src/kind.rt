//! The media type of a content stream.
ghost use Rattle.std.specs.Prelude.{◌≡◌, [], map};
ghost use Rattle.std.specs.List.{list_all};
ghost use Rattle.cm_base.specs.Judged.{Meets};
ghost use Rattle.form_parts.specs.Kinds.{is_kind_byte, has_kind_length, is_kind, kind_in, kind_by, kind_of};

use crate::field::{Field, values_named};
use cm_base::cause::Cause;
use cm_base::fail::Fail;
use cm_base::media::{LONGEST_MEDIA_TYPE, MediaType};
use cm_base::text::Text;
use std::alloc::Global;

fn is_kind_byte(b: u8) -> bool
    ensures { result ≡ is_kind_byte b }
{
    b' ' <= b && b <= b'~'
}

fn has_kind_length(bytes: &[u8]) -> bool
    ensures { result ≡ has_kind_length bytes.now }
{
    1 <= bytes.len() && bytes.len() <= LONGEST_MEDIA_TYPE
}

fn are_kind_bytes(bytes: &[u8]) -> bool
    ensures { result ≡ list_all is_kind_byte bytes.now }
{
    bytes.iter().all(|b| is_kind_byte(*b))
}

fn is_kind(bytes: &[u8]) -> bool
    ensures { result ≡ is_kind bytes.now }
{
    has_kind_length(bytes) && are_kind_bytes(bytes)
}

fn kind_in(alloc: Global, value: &[u8]) -> Result<MediaType, Fail>
    ensures { Meets (λ k. k) result (kind_in value.now) }
{
    if !is_kind(value) {
        return Err(Fail::Refused(Cause::BadBody));
    }
    let Ok(text) = str::from_utf8(value) else {
        return Err(Fail::Refused(Cause::BadBody));
    };
    match MediaType::from_text(Text::from_str(alloc, text)?) {
        Some(kind) => Ok(kind),
        None => Err(Fail::Refused(Cause::BadBody)),
    }
}

fn plain(alloc: Global) -> Result<MediaType, Fail>
    ensures { Meets (λ k. k) result (kind_by []) }
{
    match MediaType::from_text(Text::from_str(alloc, "text/plain")?) {
        Some(kind) => Ok(kind),
        None => Err(Fail::Refused(Cause::BadBody)),
    }
}

fn kind_by(alloc: Global, values: &[&[u8]]) -> Result<MediaType, Fail>
    ensures { Meets (λ k. k) result (kind_by (map (λ v. v.now) values.now)) }
{
    match values {
        [] => plain(alloc),
        [value, ..] => kind_in(alloc, value),
    }
}

/// The media type of a stream whose part has these fields: its first Content-Type, or text/plain. One that has no bytes, more than
/// 255, or others than 0x20 to 0x7E, is BadBody.
pub fn kind_of(alloc: Global, fields: &[Field]) -> Result<MediaType, Fail>
    ensures { Meets (λ k. k) result (kind_of fields.now) }
{
    let values = values_named(alloc, b"content-type", fields)?;
    kind_by(alloc, &values)
}
