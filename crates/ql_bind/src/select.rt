//! What a query shows, and what its rows are ordered by.
ghost use Rattle.std.specs.Prelude.{◌≡◌, [], ◌∷◌, ◌++◌, map, IfOk, OnOk, unwrap_or};
ghost use Rattle.cm_map.specs.Parts.{pointee};
ghost use Rattle.cm_base.specs.Judged.{Meets};
ghost use Rattle.ql_bind.specs.Binding.{all_onto, bind_item, bind_key, bind_selection, each_onto, named_column, whole_column};

use crate::bound::{OrderKey, OrderKeys, ShownColumn, ShownColumns};
use crate::column::{Scope, misused};
use cm_base::copies::Copies;
use cm_base::fail::Fail;
use cm_base::items::Items;
use cm_base::text::Text;
use cm_types::property::PropDef;
use ql_tree::tree::{Item, Key, Selection};
use std::alloc::{AllocError, Global};

fn whole_column(alloc: Global, def: &PropDef) -> Result<ShownColumn, AllocError>
    ensures { IfOk result (λ c. c ≡ whole_column def.now) }
{
    Ok(ShownColumn {
        key: def.query_name.copied(alloc)?,
        property: def.copied(alloc)?,
    })
}

fn whole_columns(alloc: Global, defs: &[&PropDef]) -> Result<ShownColumns, AllocError>
    ensures { IfOk result (λ all. all ≡ map whole_column (map pointee defs.now)) }
{
    let mut all = Items::new(alloc);
    for def in defs {
        all.push(whole_column(alloc, def)?)?;
    }
    Ok(all)
}

fn key_of(alloc: Global, alias: &Option<Text>, def: &PropDef) -> Result<Text, AllocError>
    ensures { IfOk result (λ t. t ≡ unwrap_or alias.now def.now.query_name) }
{
    match alias {
        Some(alias) => alias.copied(alloc),
        None => def.query_name.copied(alloc),
    }
}

fn one_column(
    alloc: Global,
    alias: &Option<Text>,
    def: &PropDef,
) -> Result<ShownColumns, AllocError>
    ensures { IfOk result (λ all. all ≡ named_column alias.now def.now ∷ []) }
{
    let key = key_of(alloc, alias, def)?;
    let property = def.copied(alloc)?;
    let mut all = Items::new(alloc);
    all.push(ShownColumn { key, property })?;
    Ok(all)
}

#[tactic(auto, using(cm_types::proofs::Exits::fails_bind, cm_types::proofs::Exits::fails_then))]
fn item(alloc: Global, scope: &Scope<'_>, item: &Item) -> Result<ShownColumns, Fail>
    ensures { Meets (λ x. x) result (bind_item scope.now item.now) }
{
    match item {
        Item::AllOf(table) => {
            scope.qualifier(alloc, table)?;
            let all = whole_columns(alloc, &scope.columns)?;
            Ok(all)
        }
        Item::One(column, alias) => {
            let def = scope.column(alloc, column)?;
            let one = one_column(alloc, alias, def)?;
            Ok(one)
        }
    }
}

fn append(all: &mut ShownColumns, more: ShownColumns) -> Result<(), AllocError>
    ensures { OnOk result (all.new ≡ all.old ++ more) }
{
    for column in more.into_vec() {
        all.push(column)?;
    }
    Ok(())
}

fn items(alloc: Global, scope: &Scope<'_>, items: &[Item]) -> Result<ShownColumns, Fail>
    ensures { Meets (λ x. x) result (all_onto (bind_item scope.now) [] items.now) }
{
    let mut all = Items::new(alloc);
    for x in items {
        let more = item(alloc, scope, x)?;
        append(&mut all, more)?;
    }
    Ok(all)
}

/// The columns that a query shows.
pub(crate) fn selection(
    alloc: Global,
    scope: &Scope<'_>,
    list: &Selection,
) -> Result<ShownColumns, Fail>
    ensures { Meets (λ x. x) result (bind_selection scope.now list.now) }
{
    match list {
        Selection::All => {
            let all = whole_columns(alloc, &scope.columns)?;
            Ok(all)
        }
        Selection::Columns(xs) => items(alloc, scope, xs.as_slice()),
    }
}

#[tactic(auto, using(cm_types::proofs::Exits::fails_bind))]
fn key(alloc: Global, scope: &Scope<'_>, key: &Key) -> Result<OrderKey, Fail>
    ensures { Meets (λ x. x) result (bind_key scope.now key.now) }
{
    let def = scope.column(alloc, &key.column)?;
    if !def.orderable {
        let cause = misused(alloc, &key.column)?;
        return Err(Fail::Refused(cause));
    }
    let id = def.id.copied(alloc)?;
    Ok(OrderKey {
        id,
        descending: key.descending,
    })
}

/// The keys of the order.
pub(crate) fn order(alloc: Global, scope: &Scope<'_>, keys: &[Key]) -> Result<OrderKeys, Fail>
    ensures { Meets (λ x. x) result (each_onto (bind_key scope.now) [] keys.now) }
{
    let mut all = Items::new(alloc);
    for x in keys {
        let bound = key(alloc, scope, x)?;
        all.push(bound)?;
    }
    Ok(all)
}
