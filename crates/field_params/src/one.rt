//! One parameter.
ghost use Rattle.std.specs.Prelude.{◌≡◌, ◌<◌, option_map, length, IfOk, IfSome};
ghost use Rattle.field_params.specs.Params.{value, param};

use crate::blanks::off_blanks;
use crate::quoted::{Quoted, read_quoted};
use crate::token::{after_byte, token};
use cm_base::items::Items;
use std::alloc::{AllocError, Global};

/// A parameter of a field's value: its name, and its value without quotes.
#[derive(Drop)]
pub struct Param {
    pub name: Items<u8>,
    pub value: Items<u8>,
}

/// A parameter, and what stands behind it.
#[derive(Drop)]
pub struct Read<'a> {
    pub param: Param,
    pub rest: &'a [u8],
}

fn read_value<'a>(alloc: Global, text: &'a [u8]) -> Result<Option<(Vec<u8>, &'a [u8])>, AllocError>
    ensures value { IfOk result (λ r. option_map (λ t. (t.0.items, t.1.now)) r ≡ value text.now) }
    ensures shorter { IfOk result (λ r. IfSome r (λ t. length t.1.now < length text.now)) }
{
    match text {
        [b'"', rest @ ..] => match read_quoted(alloc, rest)? {
            None => Ok(None),
            Some(Quoted { value, len }) => Ok(Some((value, rest.split_at(len).1))),
        },
        _ => match token(text) {
            None => Ok(None),
            Some((value, rest)) => Ok(Some((Vec::from_slice(alloc, value)?, rest))),
        },
    }
}

fn param_of(alloc: Global, name: &[u8], value: Vec<u8>) -> Result<Param, AllocError>
    ensures { IfOk result (λ p. p ≡ record { name = name.now; value = value.items }) }
{
    let name = Vec::from_slice(alloc, name)?;
    Ok(Param {
        name: Items::from_vec(name),
        value: Items::from_vec(value),
    })
}

/// The parameter at the front of a text, if one stands there.
pub fn read_param<'a>(alloc: Global, text: &'a [u8]) -> Result<Option<Read<'a>>, AllocError>
    ensures value { IfOk result (λ r. option_map (λ p. (p.param, p.rest.now)) r ≡ param text.now) }
    ensures shorter { IfOk result (λ r. IfSome r (λ p. length p.rest.now < length text.now)) }
{
    let Some(more) = after_byte(b';', off_blanks(text)) else {
        return Ok(None);
    };
    let Some((name, given)) = token(off_blanks(more)) else {
        return Ok(None);
    };
    let Some(given) = after_byte(b'=', given) else {
        return Ok(None);
    };
    match read_value(alloc, given)? {
        None => Ok(None),
        Some((value, rest)) => {
            let param = param_of(alloc, name, value)?;
            Ok(Some(Read { param, rest }))
        }
    }
}
