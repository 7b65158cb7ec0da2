//! Conditions bound to the columns.
ghost use Rattle.std.specs.Prelude.{◌≡◌, [], ◌∷◌, IfOk, false};
ghost use Rattle.cm_base.specs.Judged.{Meets};
ghost use Rattle.cmis_spec.specs.Access.{oid_named};
ghost use Rattle.ql_bind.specs.declared.bound.Condition.TheVariants as tests;
ghost use Rattle.ql_bind.specs.Binding.{bind_any_in, bind_compare, bind_condition, bind_equal_any, bind_filter, bind_in, bind_like, bind_null};

use crate::bound::Condition;
use crate::column::{Scope, judge_comparison, judge_like};
use crate::literal::{literal_for, literals_for};
use crate::pattern::pieces_of;
use cm_base::copies::Copies;
use cm_base::decimal::read_u64;
use cm_base::fail::Fail;
use cm_base::items::Items;
use cm_base::number::Oid;
use cm_base::text::Text;
use cm_base::value::{Scalar, Scalars};
use ql_tree::tree::{Column, Comparison, Cond, Literal};
use sqlite_items::Boxed;
use std::alloc::{AllocError, Global};

#[tactic(auto, using(cm_types::proofs::Exits::fails_bind, cm_types::proofs::Exits::fails_then))]
fn compare(
    alloc: Global,
    scope: &Scope<'_>,
    column: &Column,
    by: Comparison,
    literal: &Literal,
) -> Result<Condition, Fail>
    ensures { Meets (λ x. x) result (bind_compare scope.now column.now by literal.now) }
{
    let def = scope.single(alloc, column)?;
    judge_comparison(alloc, column, def, by)?;
    let scalar = literal_for(alloc, column, def, literal)?;
    let id = def.id.copied(alloc)?;
    Ok(Condition::Compare(id, by, scalar))
}

fn alone(alloc: Global, scalar: Scalar) -> Result<Scalars, AllocError>
    ensures { IfOk result (λ all. all ≡ scalar ∷ []) }
{
    let mut all = Items::new(alloc);
    all.push(scalar)?;
    Ok(all)
}

#[tactic(auto, using(cm_types::proofs::Exits::fails_bind, cm_types::proofs::Exits::fails_then))]
fn equal_any(
    alloc: Global,
    scope: &Scope<'_>,
    literal: &Literal,
    column: &Column,
) -> Result<Condition, Fail>
    ensures { Meets (λ x. x) result (bind_equal_any scope.now literal.now column.now) }
{
    let def = scope.several(alloc, column)?;
    let scalar = literal_for(alloc, column, def, literal)?;
    let id = def.id.copied(alloc)?;
    let scalars = alone(alloc, scalar)?;
    Ok(Condition::AnyIn(id, false, scalars))
}

#[tactic(auto, using(cm_types::proofs::Exits::fails_bind))]
fn among(
    alloc: Global,
    scope: &Scope<'_>,
    column: &Column,
    negated: bool,
    literals: &[Literal],
) -> Result<Condition, Fail>
    ensures { Meets (λ x. x) result (bind_in scope.now column.now negated literals.now) }
{
    let def = scope.single(alloc, column)?;
    let scalars = literals_for(alloc, column, def, literals)?;
    let id = def.id.copied(alloc)?;
    Ok(Condition::In(id, negated, scalars))
}

#[tactic(auto, using(cm_types::proofs::Exits::fails_bind))]
fn any_among(
    alloc: Global,
    scope: &Scope<'_>,
    column: &Column,
    negated: bool,
    literals: &[Literal],
) -> Result<Condition, Fail>
    ensures { Meets (λ x. x) result (bind_any_in scope.now column.now negated literals.now) }
{
    let def = scope.several(alloc, column)?;
    let scalars = literals_for(alloc, column, def, literals)?;
    let id = def.id.copied(alloc)?;
    Ok(Condition::AnyIn(id, negated, scalars))
}

#[tactic(auto, using(cm_types::proofs::Exits::fails_bind, cm_types::proofs::Exits::fails_then))]
fn like(
    alloc: Global,
    scope: &Scope<'_>,
    column: &Column,
    negated: bool,
    text: &Text,
) -> Result<Condition, Fail>
    ensures { Meets (λ x. x) result (bind_like scope.now column.now negated text.now) }
{
    let def = scope.single(alloc, column)?;
    judge_like(alloc, column, def)?;
    let pieces = pieces_of(alloc, text)?;
    let id = def.id.copied(alloc)?;
    Ok(Condition::Like(id, negated, pieces))
}

#[tactic(auto, using(cm_types::proofs::Exits::fails_bind))]
fn null(alloc: Global, scope: &Scope<'_>, column: &Column, negated: bool) -> Result<Condition, Fail>
    ensures { Meets (λ x. x) result (bind_null scope.now column.now negated) }
{
    let def = scope.column(alloc, column)?;
    let id = def.id.copied(alloc)?;
    Ok(Condition::Null(id, negated))
}

fn oid_named(id: &Text) -> Option<Oid>
    ensures { result ≡ oid_named id.now }
{
    match read_u64(id.bytes()) {
        Some(number) => Some(Oid(number)),
        None => None,
    }
}

fn negation(alloc: Global, inner: Condition) -> Result<Condition, AllocError>
    ensures { IfOk result (λ x. x ≡ tests.Not inner) }
{
    Ok(Condition::Not(Boxed::new(alloc, inner)?))
}

fn conjunction(alloc: Global, left: Condition, right: Condition) -> Result<Condition, AllocError>
    ensures { IfOk result (λ x. x ≡ tests.And left right) }
{
    Ok(Condition::And(Boxed::new(alloc, left)?, Boxed::new(alloc, right)?))
}

fn disjunction(alloc: Global, left: Condition, right: Condition) -> Result<Condition, AllocError>
    ensures { IfOk result (λ x. x ≡ tests.Or left right) }
{
    Ok(Condition::Or(Boxed::new(alloc, left)?, Boxed::new(alloc, right)?))
}

/// The condition bound to the columns.
#[tactic(auto, using(cm_types::proofs::Exits::fails_bind, cm_types::proofs::Exits::fails_then))]
fn condition(alloc: Global, scope: &Scope<'_>, x: &Cond) -> Result<Condition, Fail>
    ensures { Meets (λ y. y) result (bind_condition scope.now x.now) }
{
    match x {
        Cond::Or(a, b) => {
            let left = condition(alloc, scope, a.get())?;
            let right = condition(alloc, scope, b.get())?;
            let both = disjunction(alloc, left, right)?;
            Ok(both)
        }
        Cond::And(a, b) => {
            let left = condition(alloc, scope, a.get())?;
            let right = condition(alloc, scope, b.get())?;
            let both = conjunction(alloc, left, right)?;
            Ok(both)
        }
        Cond::Not(a) => {
            let inner = condition(alloc, scope, a.get())?;
            let not = negation(alloc, inner)?;
            Ok(not)
        }
        Cond::Compare(column, by, literal) => compare(alloc, scope, column, *by, literal),
        Cond::EqualAny(literal, column) => equal_any(alloc, scope, literal, column),
        Cond::In(column, negated, literals) => {
            among(alloc, scope, column, *negated, literals.as_slice())
        }
        Cond::AnyIn(column, negated, literals) => {
            any_among(alloc, scope, column, *negated, literals.as_slice())
        }
        Cond::Like(column, negated, text) => like(alloc, scope, column, *negated, text),
        Cond::Null(column, negated) => null(alloc, scope, column, *negated),
        Cond::InFolder(table, text) => {
            scope.qualified(alloc, table)?;
            Ok(Condition::InFolder(oid_named(text)))
        }
        Cond::InTree(table, text) => {
            scope.qualified(alloc, table)?;
            Ok(Condition::InTree(oid_named(text)))
        }
    }
}

/// The condition after WHERE, where there is one.
#[tactic(auto, using(cm_types::proofs::Exits::fails_bind))]
pub(crate) fn filter(
    alloc: Global,
    scope: &Scope<'_>,
    x: &Option<Cond>,
) -> Result<Option<Condition>, Fail>
    ensures { Meets (λ y. y) result (bind_filter scope.now x.now) }
{
    match x {
        None => Ok(None),
        Some(x) => {
            let bound = condition(alloc, scope, x)?;
            Ok(Some(bound))
        }
    }
}
