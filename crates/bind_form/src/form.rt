//! The method and the form of a request.
ghost use Rattle.std.specs.Prelude.{◌≡◌, option_map};
ghost use Rattle.cm_base.specs.Judged.{Meets};
ghost use Rattle.bind_form.specs.Forms.{method_of, only_pairs, form_in_parts, form_by, form_in, form_of};

use crate::boundary::boundary_of;
use crate::fields::content_type;
use crate::media::is_of_type;
use bytes::Bytes;
use cm_base::cause::Cause;
use cm_base::fail::Fail;
use cm_base::items::Items;
use form_args::pairs::Pair;
use form_args::read::form_pairs;
use form_parts::gathered::Parts;
use form_parts::parts::parts;
use http_wire::{Head, Request};
use std::alloc::Global;

/// The methods of the Browser Binding.
#[derive(Clone, Copy, Debug, PartialEq, Eq)]
pub enum Method {
    Get,
    Post,
}

/// The method of this name; any other is BadMethod.
pub fn method_of(word: &[u8]) -> Result<Method, Cause>
    ensures { result ≡ method_of word.now }
{
    if word == b"GET".as_slice() {
        Ok(Method::Get)
    } else if word == b"POST".as_slice() {
        Ok(Method::Post)
    } else {
        Err(Cause::BadMethod)
    }
}

fn only_pairs(pairs: Vec<Pair>) -> Parts
    ensures { result ≡ only_pairs pairs.items }
{
    Parts {
        pairs: Items::from_vec(pairs),
        content: None,
    }
}

#[tactic(auto, using(cm_types::proofs::Exits::fails_bind))]
fn form_in_parts(alloc: Global, kind: &[u8], body: &Bytes) -> Result<Parts, Fail>
    ensures { Meets (λ p. p) result (form_in_parts kind.now body.now) }
{
    let boundary = boundary_of(alloc, kind)?;
    parts(alloc, boundary.as_slice(), body)
}

fn form_by(alloc: Global, kind: Option<&[u8]>, body: &Bytes) -> Result<Parts, Fail>
    ensures { Meets (λ p. p) result (form_by (option_map (λ t. t.now) kind.entry) body.now) }
{
    match kind {
        None => Err(Fail::Refused(Cause::BadBody)),
        Some(kind) => {
            if is_of_type(b"application/x-www-form-urlencoded", kind) {
                let pairs = form_pairs(alloc, body.as_slice())?;
                Ok(only_pairs(pairs))
            } else if is_of_type(b"multipart/form-data", kind) {
                form_in_parts(alloc, kind, body)
            } else {
                Err(Fail::Refused(Cause::BadBody))
            }
        }
    }
}

fn form_in(alloc: Global, head: &Head, body: &Bytes) -> Result<Parts, Fail>
    ensures { Meets (λ p. p) result (form_in head.now body.now) }
{
    match body.as_slice() {
        [] => Ok(only_pairs(Vec::new(alloc))),
        [_, ..] => form_by(alloc, content_type(head), body),
    }
}

/// The form of a request: that of the body of a POST, which is urlencoded, in parts, or empty. Another body is BadBody.
pub fn form_of(alloc: Global, method: Method, request: &Request) -> Result<Parts, Fail>
    ensures { Meets (λ p. p) result (form_of method request.now) }
{
    match method {
        Method::Get => Ok(only_pairs(Vec::new(alloc))),
        Method::Post => form_in(alloc, request.head(), request.body()),
    }
}
