//! Constants as scalars of a column's kind.
ghost use Rattle.std.specs.Prelude.{◌≡◌, [], IfOk};
ghost use Rattle.cm_base.specs.declared.value.Scalar.TheVariants as scalars;
ghost use Rattle.cm_base.specs.Judged.{Meets};
ghost use Rattle.ql_bind.specs.Binding.{each_onto, is_datetime, is_integer, is_of_kind, judge_kind, literal_for, stated, stated_time, stated_whole};

use crate::column::{is_boolean, is_text_kind, misused};
use crate::moment::moment_of;
use crate::number::whole_number;
use cm_base::cause::Cause;
use cm_base::copies::Copies;
use cm_base::fail::Fail;
use cm_base::items::Items;
use cm_base::text::Text;
use cm_base::value::{Scalar, Scalars};
use cm_types::property::{PropDef, PropertyKind};
use ql_tree::tree::{Column, Literal, Timestamp};
use std::alloc::{AllocError, Global};

fn is_integer(kind: PropertyKind) -> bool
    ensures { result ≡ is_integer kind }
{
    match kind {
        PropertyKind::Integer => true,
        _ => false,
    }
}

fn is_datetime(kind: PropertyKind) -> bool
    ensures { result ≡ is_datetime kind }
{
    match kind {
        PropertyKind::Datetime => true,
        _ => false,
    }
}

fn is_of_kind(kind: PropertyKind, literal: &Literal) -> bool
    ensures { result ≡ is_of_kind kind literal.now }
{
    match literal {
        Literal::Words(_) => is_text_kind(kind),
        Literal::Whole(_) => is_integer(kind),
        Literal::Flag(_) => is_boolean(kind),
        Literal::Time(_) => is_datetime(kind),
    }
}

fn judge_kind(alloc: Global, column: &Column, def: &PropDef, literal: &Literal) -> Result<(), Fail>
    ensures { Meets (λ x. x) result (judge_kind column.now def.now literal.now) }
{
    if is_of_kind(def.kind, literal) {
        return Ok(());
    }
    let cause = misused(alloc, column)?;
    Err(Fail::Refused(cause))
}

fn stated_words(alloc: Global, text: &Text) -> Result<Scalar, AllocError>
    ensures { IfOk result (λ s. s ≡ scalars.Words text.now) }
{
    Ok(Scalar::Words(text.copied(alloc)?))
}

fn stated_whole(alloc: Global, column: &Column, text: &Text) -> Result<Scalar, Fail>
    ensures { Meets (λ x. x) result (stated_whole column.now text.now) }
{
    match whole_number(text.bytes()) {
        Some(number) => Ok(Scalar::Whole(number)),
        None => {
            let cause = misused(alloc, column)?;
            Err(Fail::Refused(cause))
        }
    }
}

fn stated_time(time: &Timestamp) -> Result<Scalar, Fail>
    ensures { Meets (λ x. x) result (stated_time time.now) }
{
    match moment_of(time.text.as_str()) {
        Some(moment) => Ok(Scalar::Time(moment)),
        None => Err(Fail::Refused(Cause::QueryText(time.at))),
    }
}

fn stated(alloc: Global, column: &Column, literal: &Literal) -> Result<Scalar, Fail>
    ensures { Meets (λ x. x) result (stated column.now literal.now) }
{
    match literal {
        Literal::Words(text) => {
            let words = stated_words(alloc, text)?;
            Ok(words)
        }
        Literal::Whole(text) => stated_whole(alloc, column, text),
        Literal::Flag(flag) => Ok(Scalar::Flag(*flag)),
        Literal::Time(time) => stated_time(time),
    }
}

/// The scalar that a constant states for the column.
#[tactic(auto, using(cm_types::proofs::Exits::fails_then))]
pub(crate) fn literal_for(
    alloc: Global,
    column: &Column,
    def: &PropDef,
    literal: &Literal,
) -> Result<Scalar, Fail>
    ensures { Meets (λ x. x) result (literal_for column.now def.now literal.now) }
{
    judge_kind(alloc, column, def, literal)?;
    stated(alloc, column, literal)
}

/// The same of each constant of a list.
pub(crate) fn literals_for(
    alloc: Global,
    column: &Column,
    def: &PropDef,
    literals: &[Literal],
) -> Result<Scalars, Fail>
    ensures { Meets (λ x. x) result (each_onto (literal_for column.now def.now) [] literals.now) }
{
    let mut all = Items::new(alloc);
    for literal in literals {
        let scalar = literal_for(alloc, column, def, literal)?;
        all.push(scalar)?;
    }
    Ok(all)
}
