//! Whole forms in parts.
ghost use Rattle.std.specs.Prelude.{◌≡◌, [], All, map};
ghost use Rattle.cm_base.specs.Judged.{Meets};
ghost use Rattle.form_args.specs.Filter.{each_onto};
ghost use Rattle.form_parts.specs.Spans.{bytes_of, IsWithin};
ghost use Rattle.form_parts.specs.Parts.{part_of, parts_of};

use crate::gathered::{Parts, gathered};
use crate::part::{Part, part_of};
use crate::span::Span;
use crate::split::split;
use bytes::Bytes;
use cm_base::fail::Fail;
use std::alloc::Global;

fn each_part(alloc: Global, body: &Bytes, spans: &[Span]) -> Result<Vec<Part>, Fail>
    requires { All (IsWithin body.now) spans.now }
    ensures { Meets (λ v. v.items) result (each_onto part_of [] (map (bytes_of body.now) spans.now)) }
{
    let mut parts = Vec::new(alloc);
    for span in spans {
        let part = part_of(alloc, body, *span)?;
        parts.push(part)?;
    }
    Ok(parts)
}

/// What a body in parts gives, with this boundary: the part named `content` is the content stream, which shares the bytes of the
/// body where it is at least half of them, and the others are arguments. A body that is no form is BadBody. It goes through the body
/// once.
#[tactic(auto, using(cm_types::proofs::Exits::fails_bind))]
pub fn parts(alloc: Global, boundary: &[u8], body: &Bytes) -> Result<Parts, Fail>
    ensures { Meets (λ p. p) result (parts_of boundary.now body.now) }
{
    let spans = split(alloc, boundary, body.as_slice())?;
    let parts = each_part(alloc, body, &spans)?;
    let gathered = gathered(alloc, parts)?;
    Ok(gathered)
}
