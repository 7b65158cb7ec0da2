//! Where the parts of a body stand.
ghost use Rattle.std.specs.Prelude.{◌≡◌, All, map, IfOk};
ghost use Rattle.cm_base.specs.declared.cause.Cause.TheVariants as causes;
ghost use Rattle.cm_base.specs.Judged.{Meets, find_or};
ghost use Rattle.form_parts.specs.Reading.{split_of};
ghost use Rattle.form_parts.specs.Spans.{bytes_of, IsWithin};

use crate::mark::Mark;
use crate::scan::scan;
use crate::span::Span;
use cm_base::cause::Cause;
use cm_base::fail::Fail;
use std::alloc::Global;

/// Where the parts of a body stand. It goes through the body once. A body that is none in parts is BadBody.
pub fn split(alloc: Global, boundary: &[u8], body: &[u8]) -> Result<Vec<Span>, Fail>
    ensures parts { Meets (λ v. map (bytes_of body.now) v.items) result
        (find_or causes.BadBody (split_of boundary.now body.now)) }
    ensures within { IfOk result (λ v. All (IsWithin body.now) v.items) }
{
    let Some(first) = scan(boundary, body, 0) else {
        return Err(Fail::Refused(Cause::BadBody));
    };
    let mut spans = Vec::new(alloc);
    match first.mark {
        Mark::Plain => return Err(Fail::Refused(Cause::BadBody)),
        Mark::Last => return Ok(spans),
        Mark::Open => {}
    }
    let mut from = first.next;
    loop {
        let Some(found) = scan(boundary, body, from) else {
            return Err(Fail::Refused(Cause::BadBody));
        };
        if found.place == from {
            return Err(Fail::Refused(Cause::BadBody));
        }
        spans.push(Span {
            from,
            to: found.place - 2,
        })?;
        match found.mark {
            Mark::Plain => return Err(Fail::Refused(Cause::BadBody)),
            Mark::Last => return Ok(spans),
            Mark::Open => from = found.next,
        }
    }
}
