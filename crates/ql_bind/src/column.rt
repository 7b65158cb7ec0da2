//! Columns by their names, and what they may stand in.
ghost use Rattle.std.specs.Prelude.{◌≡◌, IfOk, bytes_eq, find, map};
ghost use Rattle.std.specs.Option.{option_copied};
ghost use Rattle.std.specs.List.{list_any};
ghost use Rattle.cm_map.specs.Parts.{pointee};
ghost use Rattle.cm_base.specs.declared.cause.Cause.TheVariants as causes;
ghost use Rattle.cm_base.specs.Judged.{Meets};
ghost use Rattle.ql_bind.specs.Tables.{column_in, judge_qualified, judge_qualifier};
ghost use Rattle.ql_bind.specs.Binding.{is_boolean, is_equality, is_several, is_text_kind, judge_comparison, judge_like, several_in, single_in};

use cm_base::cause::Cause;
use cm_base::copies::Copies;
use cm_base::fail::Fail;
use cm_base::text::Text;
use cm_types::property::{Cardinality, PropDef, PropertyKind};
use ql_tree::tree::{Column, Comparison};
use std::alloc::{AllocError, Global};
use std::marker::Model;

/// What names are looked up in: the names that may stand before a point, and the columns.
#[derive(Drop)]
pub(crate) struct Scope<'a> {
    pub(crate) name: &'a Text,
    pub(crate) alias: Option<&'a Text>,
    pub(crate) columns: Vec<&'a PropDef>,
}

impl<'a> Model for Scope<'a> {
    ghost use Rattle.std.specs.Prelude.{map};
    ghost use Rattle.std.specs.Option.{option_copied};
    ghost use Rattle.cm_map.specs.Parts.{pointee};
    ghost use Rattle.ql_bind.specs.Tables.{Scope as Seen, names_of};

    ghost Value = { Seen };

    ghost view = { λ s. record {
      names = names_of s.name.now (option_copied s.alias);
      columns = map pointee s.columns.items;
    } };
}

fn unknown(alloc: Global, name: &Text) -> Result<Cause, AllocError>
    ensures { IfOk result (λ c. c ≡ causes.QueryName name.now) }
{
    Ok(Cause::QueryName(name.copied(alloc)?))
}

/// The column is not used rightly.
pub(crate) fn misused(alloc: Global, column: &Column) -> Result<Cause, AllocError>
    ensures { IfOk result (λ c. c ≡ causes.QueryUse column.now.name) }
{
    Ok(Cause::QueryUse(column.name.copied(alloc)?))
}

fn column_among<'a>(columns: &[&'a PropDef], name: &Text) -> Option<&'a PropDef>
    ensures { option_copied result ≡ find (λ d. bytes_eq d.query_name name.now) (map pointee columns.now) }
{
    match columns {
        [] => None,
        [def, rest @ ..] => {
            if def.query_name.is(name) {
                Some(*def)
            } else {
                column_among(rest, name)
            }
        }
    }
}

impl<'a> Scope<'a> {
    fn has_name(&self, name: &Text) -> bool
        ensures { result ≡ list_any (bytes_eq name.now) self.now.names }
    {
        match self.alias {
            None => name.is(self.name),
            Some(alias) => name.is(self.name) || name.is(alias),
        }
    }

    /// A name that stands before a point is one of the table.
    pub(crate) fn qualifier(&self, alloc: Global, name: &Text) -> Result<(), Fail>
        ensures { Meets (λ x. x) result (judge_qualifier self.now name.now) }
    {
        if self.has_name(name) {
            return Ok(());
        }
        let cause = unknown(alloc, name)?;
        Err(Fail::Refused(cause))
    }

    /// So is one that may be left out.
    pub(crate) fn qualified(&self, alloc: Global, name: &Option<Text>) -> Result<(), Fail>
        ensures { Meets (λ x. x) result (judge_qualified self.now name.now) }
    {
        match name {
            Some(name) => self.qualifier(alloc, name),
            None => Ok(()),
        }
    }

    fn named(&self, name: &Text) -> Option<&'a PropDef>
        ensures { option_copied result ≡ find (λ d. bytes_eq d.query_name name.now) self.now.columns }
    {
        column_among(&self.columns, name)
    }

    /// The column of a query name.
    #[tactic(auto, using(cm_types::proofs::Exits::fails_then))]
    pub(crate) fn column(&self, alloc: Global, column: &Column) -> Result<&'a PropDef, Fail>
        ensures { Meets pointee result (column_in self.now column.now) }
    {
        self.qualified(alloc, &column.qualifier)?;
        match self.named(&column.name) {
            Some(def) => Ok(def),
            None => {
                let cause = unknown(alloc, &column.name)?;
                Err(Fail::Refused(cause))
            }
        }
    }

    /// The column of one value.
    #[tactic(auto, using(cm_types::proofs::Exits::fails_bind))]
    pub(crate) fn single(&self, alloc: Global, column: &Column) -> Result<&'a PropDef, Fail>
        ensures { Meets pointee result (single_in self.now column.now) }
    {
        let def = self.column(alloc, column)?;
        if is_several(def.cardinality) {
            let cause = misused(alloc, column)?;
            return Err(Fail::Refused(cause));
        }
        Ok(def)
    }

    /// The column of several values.
    #[tactic(auto, using(cm_types::proofs::Exits::fails_bind))]
    pub(crate) fn several(&self, alloc: Global, column: &Column) -> Result<&'a PropDef, Fail>
        ensures { Meets pointee result (several_in self.now column.now) }
    {
        let def = self.column(alloc, column)?;
        if !is_several(def.cardinality) {
            let cause = misused(alloc, column)?;
            return Err(Fail::Refused(cause));
        }
        Ok(def)
    }
}

fn is_several(cardinality: Cardinality) -> bool
    ensures { result ≡ is_several cardinality }
{
    match cardinality {
        Cardinality::Single => false,
        Cardinality::Multi => true,
    }
}

pub(crate) fn is_text_kind(kind: PropertyKind) -> bool
    ensures { result ≡ is_text_kind kind }
{
    match kind {
        PropertyKind::String | PropertyKind::Uri | PropertyKind::Id | PropertyKind::Html => true,
        _ => false,
    }
}

pub(crate) fn is_boolean(kind: PropertyKind) -> bool
    ensures { result ≡ is_boolean kind }
{
    match kind {
        PropertyKind::Boolean => true,
        _ => false,
    }
}

fn is_equality(by: Comparison) -> bool
    ensures { result ≡ is_equality by }
{
    match by {
        Comparison::Equal | Comparison::NotEqual => true,
        _ => false,
    }
}

/// Flags have no order in a test.
pub(crate) fn judge_comparison(
    alloc: Global,
    column: &Column,
    def: &PropDef,
    by: Comparison,
) -> Result<(), Fail>
    ensures { Meets (λ x. x) result (judge_comparison column.now def.now by) }
{
    if is_boolean(def.kind) && !is_equality(by) {
        let cause = misused(alloc, column)?;
        return Err(Fail::Refused(cause));
    }
    Ok(())
}

/// LIKE is for texts.
pub(crate) fn judge_like(alloc: Global, column: &Column, def: &PropDef) -> Result<(), Fail>
    ensures { Meets (λ x. x) result (judge_like column.now def.now) }
{
    if is_text_kind(def.kind) {
        return Ok(());
    }
    let cause = misused(alloc, column)?;
    Err(Fail::Refused(cause))
}
