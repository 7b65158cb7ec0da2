//! What is wrong with a value (CMIS 1.1, section 2.1.3.3).
ghost use Rattle.std.specs.Prelude.{◌≡◌, pos, int_lt};
ghost use Rattle.std.specs.List.{list_any, list_all};
ghost use Rattle.core.specs.Fmt.{is_char_start};
ghost use Rattle.cm_types.specs.Properties.{scalars_of, same_scalar, is_of_kind, characters, is_too_long, is_out_of_range, is_below_least, is_above_most, is_no_choice, has_other_cardinality, value_fault};

use crate::property::{Cardinality, Choice, PropDef, PropertyKind};
use cm_base::cause::PropertyFault;
use cm_base::text::Text;
use cm_base::value::{Scalar, Value};

/// Whether both are the same scalar.
pub fn same_scalar(a: &Scalar, b: &Scalar) -> bool
    ensures { result ≡ same_scalar a.now b.now }
{
    match a {
        Scalar::Flag(x) => match b {
            Scalar::Flag(y) => *x == *y,
            _ => false,
        },
        Scalar::Whole(x) => match b {
            Scalar::Whole(y) => *x == *y,
            _ => false,
        },
        Scalar::Time(x) => match b {
            Scalar::Time(y) => *x == *y,
            _ => false,
        },
        Scalar::Words(x) => match b {
            Scalar::Words(y) => x.is(y),
            _ => false,
        },
    }
}

/// Whether the scalar is of the kind: strings, URIs, ids and HTML are texts.
pub fn is_of_kind(kind: PropertyKind, scalar: &Scalar) -> bool
    ensures { result ≡ is_of_kind kind scalar.now }
{
    match kind {
        PropertyKind::Boolean => matches!(scalar, Scalar::Flag(_)),
        PropertyKind::Integer => matches!(scalar, Scalar::Whole(_)),
        PropertyKind::Datetime => matches!(scalar, Scalar::Time(_)),
        PropertyKind::String | PropertyKind::Uri | PropertyKind::Id | PropertyKind::Html => {
            matches!(scalar, Scalar::Words(_))
        }
    }
}

// A byte that continues a character is 10xxxxxx.
fn begins_character(byte: u8) -> bool
    ensures { result ≡ is_char_start byte }
{
    byte < 0x80 || byte >= 0xC0
}

fn characters(text: &Text) -> usize
    ensures { result ≡ characters text.now }
{
    text.bytes()
        .iter()
        .filter(|b| begins_character(**b))
        .count()
}

fn exceeds(count: usize, most: i64) -> bool
    ensures { result ≡ int_lt most (pos count) }
{
    most < 0 || count as u64 > most as u64
}

/// Whether a text has more characters (Unicode scalar values) than the property allows.
pub fn is_too_long(def: &PropDef, scalar: &Scalar) -> bool
    ensures { result ≡ is_too_long def.now scalar.now }
{
    match scalar {
        Scalar::Words(text) => match def.max_length {
            Some(most) => exceeds(characters(text), most),
            None => false,
        },
        _ => false,
    }
}

fn is_below_least(def: &PropDef, number: i64) -> bool
    ensures { result ≡ is_below_least def.now number }
{
    match def.min_value {
        Some(least) => number < least,
        None => false,
    }
}

fn is_above_most(def: &PropDef, number: i64) -> bool
    ensures { result ≡ is_above_most def.now number }
{
    match def.max_value {
        Some(most) => most < number,
        None => false,
    }
}

/// Whether a whole number is not between the bounds of the property.
pub fn is_out_of_range(def: &PropDef, scalar: &Scalar) -> bool
    ensures { result ≡ is_out_of_range def.now scalar.now }
{
    match scalar {
        Scalar::Whole(number) => is_below_least(def, *number) || is_above_most(def, *number),
        _ => false,
    }
}

fn is_among(choices: &[Choice], scalar: &Scalar) -> bool
    ensures { result ≡ list_any (λ c. same_scalar c.value scalar.now) choices.now }
{
    choices.iter().any(|c| same_scalar(&c.value, scalar))
}

/// Whether the property has choices, values beside them are not allowed, and the scalar is none of them.
pub fn is_no_choice(def: &PropDef, scalar: &Scalar) -> bool
    ensures { result ≡ is_no_choice def.now scalar.now }
{
    !def.open_choice && def.choices.len() > 0 && !is_among(def.choices.as_slice(), scalar)
}

fn are_of_kind(kind: PropertyKind, scalars: &[Scalar]) -> bool
    ensures { result ≡ list_all (is_of_kind kind) scalars.now }
{
    scalars.iter().all(|s| is_of_kind(kind, s))
}

fn are_too_long(def: &PropDef, scalars: &[Scalar]) -> bool
    ensures { result ≡ list_any (is_too_long def.now) scalars.now }
{
    scalars.iter().any(|s| is_too_long(def, s))
}

fn are_out_of_range(def: &PropDef, scalars: &[Scalar]) -> bool
    ensures { result ≡ list_any (is_out_of_range def.now) scalars.now }
{
    scalars.iter().any(|s| is_out_of_range(def, s))
}

fn are_no_choice(def: &PropDef, scalars: &[Scalar]) -> bool
    ensures { result ≡ list_any (is_no_choice def.now) scalars.now }
{
    scalars.iter().any(|s| is_no_choice(def, s))
}

/// The scalars of a value, without taking memory.
pub fn scalars_of(value: &Value) -> &[Scalar]
    ensures { result.now ≡ scalars_of value.now }
{
    match value {
        Value::Unset => &[],
        Value::One(scalar) => std::slice::from_ref(scalar),
        Value::Many(scalars) => scalars.as_slice(),
    }
}

fn has_other_cardinality(cardinality: Cardinality, value: &Value) -> bool
    ensures { result ≡ has_other_cardinality cardinality value.now }
{
    match cardinality {
        Cardinality::Single => matches!(value, Value::Many(_)),
        Cardinality::Multi => matches!(value, Value::One(_)),
    }
}

/// The first fault of a value: cardinality, form, length, range, choice.
pub fn value_fault(def: &PropDef, value: &Value) -> Option<PropertyFault>
    ensures { result ≡ value_fault def.now value.now }
{
    let scalars = scalars_of(value);
    if has_other_cardinality(def.cardinality, value) {
        Some(PropertyFault::Cardinality)
    } else if !are_of_kind(def.kind, scalars) {
        Some(PropertyFault::Form)
    } else if are_too_long(def, scalars) {
        Some(PropertyFault::Length)
    } else if are_out_of_range(def, scalars) {
        Some(PropertyFault::Range)
    } else if are_no_choice(def, scalars) {
        Some(PropertyFault::Choice)
    } else {
        None
    }
}
