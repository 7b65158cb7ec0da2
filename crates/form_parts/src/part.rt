//! One part of a form.
ghost use Rattle.std.specs.Prelude.{◌≡◌};
ghost use Rattle.cm_base.specs.Judged.{Meets};
ghost use Rattle.form_parts.specs.Spans.{bytes_of, IsWithin};
ghost use Rattle.form_parts.specs.Parts.{content_of, part_by, part_in, part_of};

use crate::disposition::{file_in, is_uncoded, name_in, params_in};
use crate::field::Field;
use crate::head::read_head;
use crate::kind::kind_of;
use crate::span::Span;
use crate::wanted::text_in;
use bytes::Bytes;
use call_parts::stream::GivenStream;
use cm_base::cause::Cause;
use cm_base::fail::Fail;
use cm_base::pieces::Pieces;
use cm_base::text::Text;
use form_args::pairs::Pair;
use std::alloc::Global;

/// A part of a form: an argument, or a content stream.
#[derive(Drop)]
pub enum Part {
    Argument(Pair),
    Content(GivenStream),
}

fn content_of(
    alloc: Global,
    body: &Bytes,
    at: Span,
    file: Option<Text>,
    fields: &[Field],
) -> Result<GivenStream, Fail>
    requires { IsWithin body.now at }
    ensures { Meets (λ s. s) result (content_of (bytes_of body.now at) file fields.now) }
{
    let kind = kind_of(alloc, fields)?;
    let pieces = Pieces::of_part(alloc, body, at.from, at.to)?;
    Ok(GivenStream { kind, file, pieces })
}

fn part_by(
    alloc: Global,
    body: &Bytes,
    at: Span,
    name: Text,
    file: Option<Text>,
    fields: &[Field],
) -> Result<Part, Fail>
    requires { IsWithin body.now at }
    ensures { Meets (λ p. p) result (part_by name file (fields.now, bytes_of body.now at)) }
{
    if name.is_str("content") {
        let stream = content_of(alloc, body, at, file, fields)?;
        Ok(Part::Content(stream))
    } else {
        let value = text_in(alloc, &body.as_slice()[at.from..at.to])?;
        Ok(Part::Argument(Pair { name, value }))
    }
}

#[tactic(auto, using(cm_types::proofs::Exits::fails_bind, cm_types::proofs::Exits::fails_then))]
fn part_in(alloc: Global, body: &Bytes, at: Span, fields: &[Field]) -> Result<Part, Fail>
    requires { IsWithin body.now at }
    ensures { Meets (λ p. p) result (part_in (fields.now, bytes_of body.now at)) }
{
    let params = params_in(alloc, fields)?;
    if !is_uncoded(alloc, fields)? {
        return Err(Fail::Refused(Cause::BadBody));
    }
    let name = name_in(alloc, &params)?;
    let file = file_in(alloc, &params)?;
    part_by(alloc, body, at, name, file, fields)
}

/// The part of a form that stands at a place of its body. What is none is BadBody.
pub fn part_of(alloc: Global, body: &Bytes, at: Span) -> Result<Part, Fail>
    requires { IsWithin body.now at }
    ensures { Meets (λ p. p) result (part_of (bytes_of body.now at)) }
{
    match read_head(alloc, &body.as_slice()[at.from..at.to])? {
        None => Err(Fail::Refused(Cause::BadBody)),
        Some(head) => {
            let from = at.to - head.content.len();
            part_in(alloc, body, Span { from, to: at.to }, &head.fields)
        }
    }
}
