//! The pairs of an urlencoded form and of a target's query.
ghost use Rattle.std.specs.Prelude.{◌≡◌, ◌++◌, IfOk};
ghost use Rattle.form_args.specs.Read.{decoded, form_pairs};

use crate::pairs::{Pair, Pairs};
use cm_base::text::Text;
use std::alloc::{AllocError, Global};

fn decoded(alloc: Global, bytes: &[u8]) -> Result<Text, AllocError>
    ensures { IfOk result (λ t. t ≡ decoded bytes.now) }
{
    let text = form_urlencoded::decode(alloc, bytes)?;
    Ok(Text::from_string(text.into_owned(alloc)?))
}

// The pairs for which room is made at once: most forms have no more, and an empty text has none.
fn room_for(text: &[u8]) -> usize {
    if text.is_empty() { 0 } else { 16 }
}

/// The pairs of a text in the form application/x-www-form-urlencoded. What is no UTF-8 has U+FFFD in its place.
pub fn form_pairs(alloc: Global, text: &[u8]) -> Result<Vec<Pair>, AllocError>
    ensures { IfOk result (λ v. v.items ≡ form_pairs text.now) }
{
    let mut list = Vec::with_capacity(alloc, room_for(text))?;
    for (name, value) in form_urlencoded::raw_pairs(text) {
        list.push(Pair {
            name: decoded(alloc, name)?,
            value: decoded(alloc, value)?,
        })?;
    }
    Ok(list)
}

fn both(alloc: Global, form: Vec<Pair>, query: &[u8]) -> Result<Vec<Pair>, AllocError>
    ensures { IfOk result (λ v. v.items ≡ form.items ++ form_pairs query.now) }
{
    let mut all = form;
    let mut more = form_pairs(alloc, query)?;
    all.append(&mut more)?;
    Ok(all)
}

/// The pairs of a form, and then those of a target's query.
pub fn with_query(alloc: Global, form: Vec<Pair>, query: &[u8]) -> Result<Pairs, AllocError>
    ensures { IfOk result (λ p. p ≡ form.items ++ form_pairs query.now) }
{
    let all = both(alloc, form, query)?;
    Pairs::from_vec(alloc, all)
}
