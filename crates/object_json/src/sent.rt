//! What is sent: a text of JSON, bytes of another type, or nothing.
ghost use Rattle.std.specs.Prelude.{◌≡◌, codes, IfOk, Some};
ghost use Rattle.serde_json.specs.Written.{compact_text};
ghost use Rattle.json_text.specs.Shown.{data_of};
ghost use Rattle.object_json.specs.Sent.{shown_json, shown_nothing};

use bytes::Bytes;
use cm_base::body::Body;
use cm_base::media::MediaType;
use cm_base::shown::Shown;
use cm_base::text::Text;
use json_text::tree::Json;
use std::alloc::{AllocError, Global};

/// What is sent of bytes of this type that are made at this step, with this status.
pub fn shown_as(status: u16, kind: MediaType, body: Body, number: u64) -> Shown
    ensures { result ≡ record { status = status; kind = kind; body = body; number = Some number } }
{
    Shown {
        status,
        kind,
        body,
        number: Some(number),
    }
}

fn json_kind(alloc: Global) -> Result<MediaType, AllocError>
    ensures { IfOk result (λ k. k ≡ codes "application/json") }
{
    let text = Text::from_str(alloc, "application/json")?;
    match MediaType::from_text(text) {
        Some(kind) => Ok(kind),
        None => unreachable!(),
    }
}

/// What is sent of a text of JSON that is made at this step, with this status.
pub fn shown_json(alloc: Global, status: u16, body: Bytes, number: u64) -> Result<Shown, AllocError>
    ensures { IfOk result (λ s. s ≡ shown_json status body number) }
{
    let kind = json_kind(alloc)?;
    Ok(shown_as(status, kind, Body::of(body), number))
}

/// What is sent of a JSON value that is made at this step, as compact text, with this status.
pub fn sent(alloc: Global, status: u16, json: Json, number: u64) -> Result<Shown, AllocError>
    ensures { IfOk result (λ s. s ≡ shown_json status (compact_text (data_of json)) number) }
{
    let text = json.to_vec(alloc)?;
    let body = Bytes::from_vec(text)?;
    let shown = shown_json(alloc, status, body, number)?;
    Ok(shown)
}

/// What is sent of a removal at this step. It takes no memory.
pub fn shown_nothing(alloc: Global, number: u64) -> Shown
    ensures { result ≡ shown_nothing number }
{
    match MediaType::from_text(Text::empty(alloc)) {
        Some(kind) => shown_as(200, kind, Body::of(Bytes::new()), number),
        None => unreachable!(),
    }
}
