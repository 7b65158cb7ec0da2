//! Tests of values.
ghost use Rattle.std.specs.Prelude.{◌≡◌};
ghost use Rattle.std.specs.List.{list_any};
ghost use Rattle.core.specs.Ordering.{is_eq};
ghost use Rattle.cmis_spec.specs.Repository.{same};
ghost use Rattle.cm_base.specs.Orders.{scalar_order};
ghost use Rattle.cm_types.specs.Properties.{is_set};
ghost use Rattle.ql_eval.specs.Conditions.{any_in, compared, is_among, is_in, is_like, is_null, is_one_of, is_wanted, meets};

use crate::like::likes;
use crate::truth::Truth;
use cm_base::number::Oid;
use cm_base::value::{Scalar, Value};
use ql_bind::bound::Piece;
use ql_tree::tree::Comparison;
use std::cmp::Ordering;

fn meets(by: Comparison, order: Ordering) -> bool
    ensures { result ≡ meets by order }
{
    match by {
        Comparison::Equal => order.is_eq(),
        Comparison::NotEqual => order.is_ne(),
        Comparison::Less => order.is_lt(),
        Comparison::Greater => order.is_gt(),
        Comparison::LessEqual => order.is_le(),
        Comparison::GreaterEqual => order.is_ge(),
    }
}

/// The value compares so with the scalar.
pub(crate) fn compared(by: Comparison, scalar: &Scalar, value: &Value) -> Truth
    ensures { result ≡ compared by scalar.now value.now }
{
    match value {
        Value::One(x) => Truth::of(meets(by, x.order(scalar))),
        _ => Truth::Unknown,
    }
}

fn equals(x: &Scalar, s: &Scalar) -> bool
    ensures { result ≡ is_eq (scalar_order x.now s.now) }
{
    x.order(s).is_eq()
}

fn is_among(scalars: &[Scalar], x: &Scalar) -> bool
    ensures { result ≡ is_among scalars.now x.now }
{
    scalars.iter().any(|s| equals(x, s))
}

/// The value is one of the scalars.
pub(crate) fn is_in(scalars: &[Scalar], value: &Value) -> Truth
    ensures { result ≡ is_in scalars.now value.now }
{
    match value {
        Value::One(x) => Truth::of(is_among(scalars, x)),
        _ => Truth::Unknown,
    }
}

fn is_wanted(negated: bool, scalars: &[Scalar], x: &Scalar) -> bool
    ensures { result ≡ is_wanted negated scalars.now x.now }
{
    if negated {
        !is_among(scalars, x)
    } else {
        is_among(scalars, x)
    }
}

fn any_wanted(negated: bool, scalars: &[Scalar], xs: &[Scalar]) -> bool
    ensures { result ≡ list_any (is_wanted negated scalars.now) xs.now }
{
    if negated {
        xs.iter().any(|x| !is_among(scalars, x))
    } else {
        xs.iter().any(|x| is_among(scalars, x))
    }
}

/// One of the values is one of the scalars, or is none of them.
pub(crate) fn any_in(negated: bool, scalars: &[Scalar], value: &Value) -> Truth
    ensures { result ≡ any_in negated scalars.now value.now }
{
    match value {
        Value::Unset => Truth::Unknown,
        Value::One(x) => Truth::of(is_wanted(negated, scalars, x)),
        Value::Many(xs) => Truth::of(any_wanted(negated, scalars, xs.as_slice())),
    }
}

/// The value is a text that is like the pattern.
pub(crate) fn is_like(pieces: &[Piece], value: &Value) -> Truth
    ensures { result ≡ is_like pieces.now value.now }
{
    match value {
        Value::One(x) => match x {
            Scalar::Words(text) => Truth::of(likes(pieces, text.bytes())),
            _ => Truth::Unknown,
        },
        _ => Truth::Unknown,
    }
}

fn is_set(value: &Value) -> bool
    ensures { result ≡ is_set value.now }
{
    match value {
        Value::Unset => false,
        _ => true,
    }
}

/// The value is unset, or with NOT set.
pub(crate) fn is_null(negated: bool, value: &Value) -> Truth
    ensures { result ≡ is_null negated value.now }
{
    let set = is_set(value);
    if negated {
        Truth::of(set)
    } else {
        Truth::of(!set)
    }
}

fn has_folder(folders: &[Oid], f: Oid) -> bool
    ensures { result ≡ list_any (same f) folders.now }
{
    match folders {
        [] => false,
        [x, rest @ ..] => f == *x || has_folder(rest, f),
    }
}

/// The folder is one of these.
pub(crate) fn is_one_of(folders: &[Oid], folder: Option<Oid>) -> Truth
    ensures { result ≡ is_one_of folders.now folder }
{
    match folder {
        None => Truth::Fails,
        Some(f) => Truth::of(has_folder(folders, f)),
    }
}
