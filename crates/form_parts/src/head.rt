//! The head of a part.
ghost use Rattle.std.specs.Prelude.{◌≡◌, ◌≤◌, ◌-◌, length, drop, option_map, IfOk};
ghost use Rattle.std.specs.Option.{IfSome};
ghost use Rattle.form_parts.specs.Heads.{head_of};

use crate::field::{Field, field_of};
use crate::line::line_at;
use std::alloc::{AllocError, Global};

/// The fields of a part, and its content.
#[derive(Drop)]
pub struct Head<'a> {
    pub fields: Vec<Field<'a>>,
    pub content: &'a [u8],
}

/// The fields of a part, and its content, which ends where the part ends; none where the part has no head.
pub fn read_head<'a>(alloc: Global, text: &'a [u8]) -> Result<Option<Head<'a>>, AllocError>
    ensures value { IfOk result (λ r. option_map (λ h. (h.fields.items, h.content.now)) r ≡ head_of text.now) }
    ensures short { IfOk result (λ r. IfSome r (λ h. length h.content.now ≤ length text.now)) }
    ensures last { IfOk result (λ r. IfSome r (λ h. h.content.now
        ≡ drop (length text.now - length h.content.now) text.now)) }
{
    let mut fields = Vec::new(alloc);
    let mut rest = text;
    while !rest.is_empty() {
        let Some(line) = line_at(rest) else {
            return Ok(None);
        };
        if line.text.is_empty() {
            return Ok(Some(Head {
                fields,
                content: line.rest,
            }));
        }
        let Some(field) = field_of(line.text) else {
            return Ok(None);
        };
        fields.push(field)?;
        rest = line.rest;
    }
    Ok(Some(Head {
        fields,
        content: rest,
    }))
}
