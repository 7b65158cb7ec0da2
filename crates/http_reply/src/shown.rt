//! What is shown of causes.
ghost use Rattle.std.specs.Prelude.{◌≡◌, IfOk, codes};
ghost use Rattle.http_reply.specs.Replies as replies;

use bytes::Bytes;
use cm_base::body::Body;
use cm_base::cause::Cause;
use cm_base::media::MediaType;
use cm_base::shown::Shown;
use cm_base::text::Text;
use http_grammar::HttpFault;
use json_text::cause::cause_body;
use std::alloc::{AllocError, Global};

// The media type of JSON.
fn json_type(alloc: Global) -> Result<MediaType, AllocError>
    ensures { IfOk result (λ kind. kind ≡ codes "application/json") }
{
    let text = Text::from_str(alloc, "application/json")?;
    match MediaType::from_text(text) {
        Some(kind) => Ok(kind),
        None => Err(AllocError),
    }
}

/// What is shown of a cause: its status, the body `{"exception":..,"message":..}`, and the step number, if it has one.
pub fn cause_shown(alloc: Global, cause: &Cause, number: Option<u64>) -> Result<Shown, AllocError>
    ensures { IfOk result (λ shown. shown ≡ replies.cause_shown cause.now number) }
{
    let kind = json_type(alloc)?;
    let body = cause_body(alloc, cause)?;
    Ok(Shown {
        status: cause.status(),
        kind,
        body: Body::of(body),
        number,
    })
}

/// The same without its body and its media type, as a reply to HEAD is. It takes no memory.
pub fn without_body(alloc: Global, shown: Shown) -> Shown
    ensures { result ≡ replies.without_body shown }
{
    match MediaType::from_text(Text::empty(alloc)) {
        Some(kind) => Shown {
            status: shown.status,
            kind,
            body: Body::of(Bytes::new()),
            number: shown.number,
        },
        None => shown,
    }
}

/// The cause of a fault of the bytes. A cut has none, since nothing is sent then.
pub fn fault_cause(fault: HttpFault) -> Option<Cause>
    ensures { result ≡ replies.fault_cause fault }
{
    match fault {
        HttpFault::BadHead => Some(Cause::BadHead),
        HttpFault::LongHead => Some(Cause::LongHead),
        HttpFault::LongBody => Some(Cause::LongBody),
        HttpFault::BadLength => Some(Cause::BadLength),
        HttpFault::Coding => Some(Cause::Coding),
        HttpFault::Cut => None,
    }
}
