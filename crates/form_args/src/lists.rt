//! List controls: NAME[0], NAME[1], ..
ghost use Rattle.std.specs.Prelude.{◌≡◌, string_bytes, IfOk, OnOk};
ghost use Rattle.form_args.specs.Pairs.{indexed, texts_of};

use crate::pairs::Pairs;
use cm_base::copies::Copies;
use cm_base::items::Items;
use cm_base::text::Texts;
use itoa::Buffer;
use std::alloc::{AllocError, Global};

// Room for most names of list controls.
const ROOM: usize = 32;

// Writes NAME[i] in place of what the text was.
fn write_indexed(key: &mut String, name: &str, i: usize) -> Result<(), AllocError>
    ensures { OnOk result (string_bytes key.new ≡ indexed name.now i) }
{
    let mut digits = Buffer::new();
    key.clear();
    key.push_str(name)?;
    key.push_str("[")?;
    key.push_str(digits.format(i))?;
    key.push_str("]")
}

/// NAME[i].
pub fn indexed(alloc: Global, name: &str, i: usize) -> Result<String, AllocError>
    ensures { IfOk result (λ s. string_bytes s ≡ indexed name.now i) }
{
    let mut key = String::with_capacity(alloc, ROOM)?;
    write_indexed(&mut key, name, i)?;
    Ok(key)
}

/// The values of NAME[0], NAME[1], .. up to the first that is absent.
pub fn texts(alloc: Global, pairs: &Pairs, name: &str) -> Result<Texts, AllocError>
    ensures { IfOk result (λ v. v ≡ texts_of pairs.now name.now) }
{
    let mut values = Vec::new(alloc);
    let mut key = String::with_capacity(alloc, ROOM)?;
    for i in 0..pairs.len() {
        write_indexed(&mut key, name, i)?;
        match pairs.first(key.as_str()) {
            None => return Ok(Items::from_vec(values)),
            Some(value) => values.push(value.copied(alloc)?)?,
        }
    }
    Ok(Items::from_vec(values))
}
