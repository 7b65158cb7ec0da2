//! Values of the properties that the repository sets.
ghost use Rattle.std.specs.Prelude.{◌≡◌, ◌∷◌, decimal, IfOk, Option, Some, None, option_map, map};
ghost use Rattle.cm_base.specs.declared.value.Scalar.TheVariants.{Words};
ghost use Rattle.cm_base.specs.declared.value.Value.TheVariants.{Unset};
ghost use Rattle.cmis_spec.specs.Values.{words, texts};
ghost use Rattle.cm_see.specs.Shown.{flag, words_or_unset};

use cm_base::copies::Copies;
use cm_base::items::Items;
use cm_base::text::Text;
use cm_base::value::{Scalar, Scalars, Value};
use std::alloc::{AllocError, Global};

pub(crate) fn flag(on: bool) -> Value
    ensures { result ≡ flag on }
{
    Value::One(Scalar::Flag(on))
}

pub(crate) fn words(alloc: Global, text: &str) -> Result<Value, AllocError>
    ensures { IfOk result (λ v. v ≡ words text.now) }
{
    let text = Text::from_str(alloc, text)?;
    Ok(Value::One(Scalar::Words(text)))
}

fn decimal(alloc: Global, number: u64) -> Result<Text, AllocError>
    ensures { IfOk result (λ t. t ≡ decimal number) }
{
    let text = format!(in alloc; "{number}");
    Ok(Text::from_string(text?))
}

/// An id, or another number as a text.
pub(crate) fn number_words(alloc: Global, number: u64) -> Result<Value, AllocError>
    ensures { IfOk result (λ v. v ≡ words (decimal number)) }
{
    let text = decimal(alloc, number)?;
    Ok(Value::One(Scalar::Words(text)))
}

pub(crate) fn number_or_unset(alloc: Global, number: Option<u64>) -> Result<Value, AllocError>
    ensures { IfOk result (λ v. v ≡ words_or_unset (option_map decimal number)) }
{
    match number {
        Some(number) => {
            let value = number_words(alloc, number)?;
            Ok(value)
        }
        None => Ok(Value::Unset),
    }
}

fn scalars(alloc: Global, texts: &[Text]) -> Result<Scalars, AllocError>
    ensures { IfOk result (λ all. all ≡ map Words texts.now) }
{
    let mut all = Items::new(alloc);
    for text in texts {
        all.push(Scalar::Words(text.copied(alloc)?))?;
    }
    Ok(all)
}

/// A list of texts; the empty list is unset.
pub(crate) fn texts(alloc: Global, items: &[Text]) -> Result<Value, AllocError>
    ensures { IfOk result (λ v. v ≡ texts items.now) }
{
    match items {
        [] => Ok(Value::Unset),
        _ => {
            let all = scalars(alloc, items)?;
            Ok(Value::Many(all))
        }
    }
}
