//! The fields of a part's head.
ghost use Rattle.std.specs.Prelude.{◌≡◌, ◌++◌, ◌∷◌, [], map, IfOk, OnOk};
ghost use Rattle.std.specs.List.{list_all};
ghost use Rattle.http_header.specs.Token.{is_value_byte};
ghost use Rattle.http_grammar.specs.Fields.{values_named};
ghost use Rattle.form_parts.specs.Heads.{field_of};

use field_params::blanks::trimmed;
use field_params::token::{after_byte, token};
use http_grammar::same_word;
use std::alloc::{AllocError, Global};
use std::marker::Model;

/// A field: its name, and its value without the blanks around it.
#[derive(Drop)]
pub struct Field<'a> {
    name: &'a [u8],
    value: &'a [u8],
}

impl<'a> Model for Field<'a> {
    ghost use Rattle.std.specs.Prelude.{ℕ, List};

    ghost Value = { List ℕ × List ℕ };

    ghost view = { λ f. (f.name.now, f.value.now) };
}

fn are_value(bytes: &[u8]) -> bool
    ensures { result ≡ list_all is_value_byte bytes.now }
{
    bytes
        .iter()
        .all(|b| *b == b'\t' || (*b >= b' ' && *b != 127))
}

/// The field that a line is.
pub fn field_of(line: &[u8]) -> Option<Field<'_>>
    ensures { result ≡ field_of line.now }
{
    let Some((name, more)) = token(line) else {
        return None;
    };
    let Some(given) = after_byte(b':', more) else {
        return None;
    };
    if are_value(given) {
        Some(Field {
            name,
            value: trimmed(given),
        })
    } else {
        None
    }
}

// Adds the value of a field of this name.
#[tactic(auto, unfolding(http_grammar::specs::Fields::values_named))]
fn add_value<'a>(
    values: &mut Vec<&'a [u8]>,
    name: &[u8],
    field: &Field<'a>,
) -> Result<(), AllocError>
    ensures { OnOk result (map (λ v. v.now) values.new.items
        ≡ map (λ v. v.now) values.old.items ++ values_named name.now (field.now ∷ [])) }
{
    if same_word(field.name, name) {
        values.push(field.value)?;
    }
    Ok(())
}

/// The values of the fields of this name, in any case.
#[tactic(auto, unfolding(http_grammar::specs::Fields::values_named))]
pub fn values_named<'a>(
    alloc: Global,
    name: &[u8],
    fields: &[Field<'a>],
) -> Result<Vec<&'a [u8]>, AllocError>
    ensures { IfOk result (λ v. map (λ x. x.now) v.items ≡ values_named name.now fields.now) }
{
    let mut values = Vec::new(alloc);
    for field in fields {
        add_value(&mut values, name, field)?;
    }
    Ok(values)
}
