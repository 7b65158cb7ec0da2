//! Members that are texts or flags, and arrays of texts.
ghost use Rattle.std.specs.Prelude.{◌≡◌, IfOk, OnOk, fold, map};
ghost use Rattle.json_text.specs.Shown.{data_of, fields_of};
ghost use Rattle.json_text.specs.Build.{with_field};
ghost use Rattle.type_show.specs.Showing.{text_field, flag_field, texts_data};

use json_text::tree::{Elements, Fields, Json};
use std::alloc::{AllocError, Global};

/// Puts texts at their names.
pub(crate) fn put_texts(
    alloc: Global,
    fields: &mut Fields,
    texts: &[(&str, &str)],
) -> Result<(), AllocError>
    ensures { OnOk result (fields_of fields.new ≡ fold with_field (fields_of fields.old) (map text_field texts.now)) }
{
    for text in texts {
        fields.put(alloc, text.0, Json::text(alloc, text.1)?)?;
    }
    Ok(())
}

/// Puts flags at their names.
pub(crate) fn put_flags(
    alloc: Global,
    fields: &mut Fields,
    flags: &[(&str, bool)],
) -> Result<(), AllocError>
    ensures { OnOk result (fields_of fields.new ≡ fold with_field (fields_of fields.old) (map flag_field flags.now)) }
{
    for flag in flags {
        fields.put(alloc, flag.0, Json::flag(flag.1))?;
    }
    Ok(())
}

/// An array of words.
pub(crate) fn words_json(alloc: Global, words: &[&str]) -> Result<Json, AllocError>
    ensures { IfOk result (λ j. data_of j ≡ texts_data (map (λ w. w.now) words.now)) }
{
    let mut elements = Elements::new(alloc);
    for word in words {
        elements.push(Json::text(alloc, word)?)?;
    }
    Ok(Json::array(elements))
}
