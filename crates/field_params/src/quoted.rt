//! Quoted values.
ghost use Rattle.std.specs.Prelude.{◌≡◌, ◌≤◌, false, option_map, drop, length, IfOk, IfSome};
ghost use Rattle.field_params.specs.Params.{quoted};
ghost use Rattle.field_params.specs.Steps.{step_of};

use std::alloc::{AllocError, Global};

/// A quoted value, and the length of its text with the quote that ends it.
#[derive(Drop)]
pub struct Quoted {
    pub value: Vec<u8>,
    pub len: usize,
}

/// What a byte of a quoted value does: it ends it, it is a backslash that waits, it stands for itself, or the backslash before it
/// stands too.
#[derive(Clone, Copy, Debug, PartialEq, Eq)]
pub enum Step {
    End,
    Slash,
    Plain,
    Both,
}

fn step_of(escaped: bool, b: u8) -> Step
    ensures { result ≡ step_of escaped b }
{
    if escaped {
        if b == b'"' || b == b'\\' {
            return Step::Plain;
        }
        return Step::Both;
    }
    if b == b'"' {
        return Step::End;
    }
    if b == b'\\' { Step::Slash } else { Step::Plain }
}

/// A quoted value, from behind its first quote; none where no quote ends it.
pub fn read_quoted(alloc: Global, text: &[u8]) -> Result<Option<Quoted>, AllocError>
    ensures value { IfOk result (λ r. option_map (λ t. (t.value.items, drop t.len text.now)) r
        ≡ quoted false text.now) }
    ensures within { IfOk result (λ r. IfSome r (λ t. t.len ≤ length text.now)) }
{
    let mut value = Vec::new(alloc);
    let mut escaped = false;
    for (i, b) in text.iter().enumerate() {
        match step_of(escaped, *b) {
            Step::End => return Ok(Some(Quoted { value, len: i + 1 })),
            Step::Slash => escaped = true,
            Step::Plain => {
                value.push(*b)?;
                escaped = false;
            }
            Step::Both => {
                value.push(b'\\')?;
                value.push(*b)?;
                escaped = false;
            }
        }
    }
    Ok(None)
}
