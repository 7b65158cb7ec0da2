//! The arguments and the content of a form.
ghost use Rattle.std.specs.Prelude.{◌≡◌, IfOk, Some, unwrap_or};
ghost use Rattle.form_parts.specs.Parts.{gathered};

use crate::part::Part;
use call_parts::stream::GivenStream;
use cm_base::items::Items;
use form_args::pairs::Pair;
use std::alloc::{AllocError, Global};

/// What a form gives: its arguments in their order, and its content stream.
#[derive(Drop)]
pub struct Parts {
    pub pairs: Items<Pair>,
    pub content: Option<GivenStream>,
}

// The first of two streams.
fn first(content: Option<GivenStream>, stream: GivenStream) -> Option<GivenStream>
    ensures { result ≡ Some (unwrap_or content stream) }
{
    match content {
        Some(content) => Some(content),
        None => Some(stream),
    }
}

/// The arguments of these parts, and their first content stream.
pub fn gathered(alloc: Global, parts: Vec<Part>) -> Result<Parts, AllocError>
    ensures { IfOk result (λ p. p ≡ gathered parts.items) }
{
    let mut pairs = Vec::new(alloc);
    let mut content = None;
    for part in parts {
        match part {
            Part::Argument(pair) => pairs.push(pair)?,
            Part::Content(stream) => content = first(content, stream),
        }
    }
    Ok(Parts {
        pairs: Items::from_vec(pairs),
        content,
    })
}
