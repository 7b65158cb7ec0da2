//! The scalars and values that texts state.
ghost use Rattle.std.specs.Prelude.{◌≡◌, ◌++◌, OnOk, IfOk};
ghost use Rattle.std.specs.Option.{option_to_list};
ghost use Rattle.cm_types.specs.Properties.{flag_of_text, scalar_of_text, scalars_of_texts, value_of_texts, is_formless};

use cm_base::copies::Copies;
use cm_base::decimal::read_i64;
use cm_base::items::Items;
use cm_base::text::Text;
use cm_base::value::{Scalar, Scalars, Value};
use cm_types::property::{Cardinality, PropertyKind};
use std::alloc::{AllocError, Global};

fn flag_of_text(text: &Text) -> Option<bool>
    ensures { result ≡ flag_of_text text.now }
{
    if text.is_str("true") {
        Some(true)
    } else if text.is_str("false") {
        Some(false)
    } else {
        None
    }
}

/// The scalar that a text states, by the kind of the property; none where it states none.
pub fn scalar_of_text(
    alloc: Global,
    kind: PropertyKind,
    text: &Text,
) -> Result<Option<Scalar>, AllocError>
    ensures { IfOk result (λ s. s ≡ scalar_of_text kind text.now) }
{
    match kind {
        PropertyKind::Boolean => Ok(flag_of_text(text).map(|flag| Scalar::Flag(flag))),
        PropertyKind::Integer => Ok(read_i64(text.bytes()).map(|number| Scalar::Whole(number))),
        PropertyKind::Datetime => Ok(read_i64(text.bytes()).map(|moment| Scalar::Time(moment))),
        PropertyKind::String | PropertyKind::Uri | PropertyKind::Id | PropertyKind::Html => {
            Ok(Some(Scalar::Words(text.copied(alloc)?)))
        }
    }
}

/// Whether a text states no scalar of the kind, without taking memory.
pub fn is_formless(kind: PropertyKind, text: &Text) -> bool
    ensures { result ≡ is_formless kind text.now }
{
    match kind {
        PropertyKind::Boolean => flag_of_text(text).is_none(),
        PropertyKind::Integer | PropertyKind::Datetime => read_i64(text.bytes()).is_none(),
        PropertyKind::String | PropertyKind::Uri | PropertyKind::Id | PropertyKind::Html => false,
    }
}

fn add_found(all: &mut Scalars, found: Option<Scalar>) -> Result<(), AllocError>
    ensures { OnOk result (all.new ≡ all.old ++ option_to_list found) }
{
    match found {
        Some(scalar) => all.push(scalar),
        None => Ok(()),
    }
}

fn scalars_of_texts(
    alloc: Global,
    kind: PropertyKind,
    texts: &[Text],
) -> Result<Scalars, AllocError>
    ensures { IfOk result (λ all. all ≡ scalars_of_texts kind texts.now) }
{
    let mut all = Items::new(alloc);
    for text in texts {
        let found = scalar_of_text(alloc, kind, text)?;
        add_found(&mut all, found)?;
    }
    Ok(all)
}

/// The value that texts state for a property of one value or of several; no text unsets the property.
pub fn value_of_texts(
    alloc: Global,
    kind: PropertyKind,
    cardinality: Cardinality,
    texts: &[Text],
) -> Result<Value, AllocError>
    ensures { IfOk result (λ v. v ≡ value_of_texts kind cardinality texts.now) }
{
    match texts {
        [] => Ok(Value::Unset),
        [text, ..] => match cardinality {
            Cardinality::Single => match scalar_of_text(alloc, kind, text)? {
                Some(scalar) => Ok(Value::One(scalar)),
                None => Ok(Value::Unset),
            },
            Cardinality::Multi => {
                let scalars = scalars_of_texts(alloc, kind, texts)?;
                Ok(Value::Many(scalars))
            }
        },
    }
}
