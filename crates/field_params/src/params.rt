//! Parameters one after another.
ghost use Rattle.std.specs.Prelude.{◌≡◌, option_map, find, IfOk};
ghost use Rattle.http_grammar.specs.Fields.{same_word};
ghost use Rattle.field_params.specs.Params.{params_of, front_params, has_name, value_of};

use crate::blanks::are_blank;
use crate::one::{Param, Read, read_param};
use cm_base::items::Items;
use http_grammar::same_word;
use std::alloc::{AllocError, Global};

/// Parameters in their order.
pub type Params = Items<Param>;

/// The parameters that a text is; none where it isn't parameters up to its end.
pub fn read_params(alloc: Global, text: &[u8]) -> Result<Option<Params>, AllocError>
    ensures { IfOk result (λ v. v ≡ params_of text.now) }
{
    let mut params = Vec::new(alloc);
    let mut rest = text;
    while !are_blank(rest) {
        match read_param(alloc, rest)? {
            None => return Ok(None),
            Some(Read { param, rest: later }) => {
                params.push(param)?;
                rest = later;
            }
        }
    }
    Ok(Some(Items::from_vec(params)))
}

/// The parameters at the front of a text, up to the first place where none stands.
pub fn front_params(alloc: Global, text: &[u8]) -> Result<Params, AllocError>
    ensures { IfOk result (λ v. v ≡ front_params text.now) }
{
    let mut params = Vec::new(alloc);
    let mut rest = text;
    loop {
        match read_param(alloc, rest)? {
            None => return Ok(Items::from_vec(params)),
            Some(Read { param, rest: later }) => {
                params.push(param)?;
                rest = later;
            }
        }
    }
}

fn has_name(name: &[u8], param: &Param) -> bool
    ensures { result ≡ has_name name.now param.now }
{
    same_word(param.name.as_slice(), name)
}

/// The value of the first parameter of this name, in any case.
pub fn value_of<'a>(params: &'a Params, name: &[u8]) -> Option<&'a [u8]>
    ensures { option_map (λ v. v.now) result ≡ value_of name.now params.now }
{
    match params.as_slice().iter().find(|p| has_name(name, p)) {
        Some(p) => Some(p.value.as_slice()),
        None => None,
    }
}
