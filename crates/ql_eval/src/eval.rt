//! Whether a bound query keeps a row. Nothing here takes memory.
ghost use Rattle.std.specs.Prelude.{◌≡◌, bytes_eq, find};
ghost use Rattle.std.specs.Option.{option_copied};
ghost use Rattle.cm_base.specs.declared.value.Value.TheVariants.{Unset};
ghost use Rattle.cm_types.specs.Properties.{value_in};
ghost use Rattle.ql_eval.specs.Truths.{opposite_if};
ghost use Rattle.ql_eval.specs.Conditions.{any_in, compared, is_in, is_like, is_null, keeps, mentions, tests, truth};

use crate::row::Row;
use crate::truth::Truth;
use crate::value::{any_in, compared, is_in, is_like, is_null, is_one_of};
use cm_base::text::Text;
use cm_base::value::{Scalar, Slot, Value};
use ql_bind::bound::{Bound, Condition, Piece};
use ql_tree::tree::Comparison;

fn slot<'a>(row: &'a Row, id: &Text) -> Option<&'a Slot>
    ensures { option_copied result ≡ find (λ s. bytes_eq s.id id.now) row.now.values }
{
    row.values.as_slice().iter().find(|s| s.id.is(id))
}

/// The value of a property at a row; unset where the row does not have the property.
pub(crate) fn value_at<'a>(row: &'a Row, id: &Text, unset: &'a Value) -> &'a Value
    requires { unset.now ≡ Unset }
    ensures { result.now ≡ value_in row.now.values id.now }
{
    match slot(row, id) {
        Some(slot) => &slot.value,
        None => unset,
    }
}

fn compare(row: &Row, id: &Text, by: Comparison, scalar: &Scalar) -> Truth
    ensures { result ≡ compared by scalar.now (value_in row.now.values id.now) }
{
    compared(by, scalar, value_at(row, id, &Value::Unset))
}

fn among(row: &Row, id: &Text, negated: bool, scalars: &[Scalar]) -> Truth
    ensures { result ≡ opposite_if negated (is_in scalars.now (value_in row.now.values id.now)) }
{
    is_in(scalars, value_at(row, id, &Value::Unset)).opposite_if(negated)
}

fn any_among(row: &Row, id: &Text, negated: bool, scalars: &[Scalar]) -> Truth
    ensures { result ≡ any_in negated scalars.now (value_in row.now.values id.now) }
{
    any_in(negated, scalars, value_at(row, id, &Value::Unset))
}

fn like(row: &Row, id: &Text, negated: bool, pieces: &[Piece]) -> Truth
    ensures { result ≡ opposite_if negated (is_like pieces.now (value_in row.now.values id.now)) }
{
    is_like(pieces, value_at(row, id, &Value::Unset)).opposite_if(negated)
}

fn null(row: &Row, id: &Text, negated: bool) -> Truth
    ensures { result ≡ is_null negated (value_in row.now.values id.now) }
{
    is_null(negated, value_at(row, id, &Value::Unset))
}

/// What a bound condition says of a row.
pub fn truth(row: &Row, x: &Condition) -> Truth
    ensures { result ≡ truth row.now x.now }
{
    match x {
        Condition::Or(a, b) => truth(row, a.get()).or(truth(row, b.get())),
        Condition::And(a, b) => truth(row, a.get()).and(truth(row, b.get())),
        Condition::Not(a) => truth(row, a.get()).opposite(),
        Condition::Compare(id, by, scalar) => compare(row, id, *by, scalar),
        Condition::In(id, negated, scalars) => among(row, id, *negated, scalars.as_slice()),
        Condition::AnyIn(id, negated, scalars) => any_among(row, id, *negated, scalars.as_slice()),
        Condition::Like(id, negated, pieces) => like(row, id, *negated, pieces.as_slice()),
        Condition::Null(id, negated) => null(row, id, *negated),
        Condition::InFolder(f) => is_one_of(row.folders.as_slice(), *f),
        Condition::InTree(f) => is_one_of(row.above.as_slice(), *f),
    }
}

/// Whether the query keeps the row: its condition is true there, or it has none.
pub fn keeps(row: &Row, bound: &Bound) -> bool
    ensures { result ≡ keeps bound.now row.now }
{
    match &bound.filter {
        None => true,
        Some(x) => truth(row, x).holds(),
    }
}

/// Whether a bound condition names the property with this id.
pub fn mentions(x: &Condition, id: &Text) -> bool
    ensures { result ≡ mentions id.now x.now }
{
    match x {
        Condition::Or(a, b) => mentions(a.get(), id) || mentions(b.get(), id),
        Condition::And(a, b) => mentions(a.get(), id) || mentions(b.get(), id),
        Condition::Not(a) => mentions(a.get(), id),
        Condition::Compare(other, _, _) => other.is(id),
        Condition::In(other, _, _) => other.is(id),
        Condition::AnyIn(other, _, _) => other.is(id),
        Condition::Like(other, _, _) => other.is(id),
        Condition::Null(other, _) => other.is(id),
        Condition::InFolder(_) => false,
        Condition::InTree(_) => false,
    }
}

/// Whether the query tests the property: its condition names it.
pub fn tests(bound: &Bound, id: &Text) -> bool
    ensures { result ≡ tests bound.now id.now }
{
    match &bound.filter {
        None => false,
        Some(x) => mentions(x, id),
    }
}
