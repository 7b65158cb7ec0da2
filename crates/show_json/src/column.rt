//! Columns: the definitions that are shown of the objects of a page, in byte order of their ids.
ghost use Rattle.std.specs.Prelude.{◌≡◌, ◌≤◌, ◌<◌, ◌++◌, ◌∷◌, [], length, map, true, IfOk, OnOk};
ghost use Rattle.core.specs.Ordering.{nat_cmp};
ghost use Rattle.core.specs.Cmp.Lexicographic.{slice_cmp};
ghost use Rattle.cm_types.specs.declared.property.PropDef.{PropDef};
ghost use Rattle.cm_map.specs.Parts.{pointee};
ghost use Rattle.show_json.specs.Ordered.{AreRising, in_key_order, placed, put_at};
ghost use Rattle.show_json.specs.Columns.{columns_of, id_of, setting_of};

use call_parts::readings::PropertyFilter;
use cm_base::object::Object;
use cm_see::shown::shown_defs;
use cm_see::system::{SystemProperty, find_system};
use cm_state::state::State;
use cm_types::property::PropDef;
use std::alloc::{AllocError, Global};
use std::cmp::Ordering;
use std::marker::Model;

/// A definition that is shown, and which property that the repository sets it is, if it is one.
#[derive(Drop)]
pub struct Column<'a> {
    def: &'a PropDef,
    property: Option<SystemProperty>,
}

impl<'a> Model for Column<'a> {
    ghost use Rattle.std.specs.Prelude.{◌≡◌};
    ghost use Rattle.cm_types.specs.declared.property.PropDef.{PropDef};
    ghost use Rattle.show_json.specs.Columns.{setting_of};

    ghost Value = { PropDef };

    ghost view = { λ c. c.def.now };

    ghost invariant = { λ c. c.property ≡ setting_of c.def.now.id };
}

fn setting(def: &PropDef) -> Option<SystemProperty>
    ensures { result ≡ setting_of def.now.id }
{
    find_system(def.id.as_str())
}

impl<'a> Column<'a> {
    /// The column of a definition.
    pub fn of(def: &'a PropDef) -> Column<'a>
        ensures { result ≡ def.now }
    {
        Column {
            def,
            property: setting(def),
        }
    }

    /// The definition.
    pub fn def(&self) -> &'a PropDef
        ensures { result.now ≡ self.now }
    {
        self.def
    }

    /// The property that the repository sets, if it is one.
    pub fn property(&self) -> Option<SystemProperty>
        ensures { result ≡ setting_of self.now.id }
    {
        self.property
    }
}

fn order(a: &Column, b: &Column) -> Ordering
    ensures { result ≡ slice_cmp nat_cmp a.now.id b.now.id }
{
    a.def.id.cmp(&b.def.id)
}

// Whether the column comes behind all others.
fn is_behind(columns: &[Column], column: &Column) -> bool
    requires rising { AreRising id_of columns.now }
    ensures { result ≡ true → placed id_of column.now columns.now ≡ columns.now ++ column.now ∷ [] }
{
    match columns.split_last() {
        Some((last, _)) => order(column, last).is_gt(),
        None => true,
    }
}

// The place of the column among others, and whether one with its id stands there.
#[tactic(auto, using(crate::proofs::Placed::put_before, crate::proofs::Placed::put_over, crate::proofs::Placed::put_later))]
fn place_of(columns: &[Column], column: &Column) -> (usize, bool)
    ensures within { result.0 ≤ length columns.now }
    ensures held { result.1 ≡ true → result.0 < length columns.now }
    ensures place { placed id_of column.now columns.now ≡ put_at result.1 columns.now result.0 column.now }
{
    match columns {
        [] => (0, false),
        [first, more @ ..] => match order(column, first) {
            Ordering::Less => (0, false),
            Ordering::Equal => (0, true),
            Ordering::Greater => {
                let (at, is_held) = place_of(more, column);
                (at + 1, is_held)
            }
        },
    }
}

// Puts the column at its place, or in place of the one with its id. Most come behind all others, since a type's definitions are in order.
fn put<'a>(columns: &mut Vec<Column<'a>>, column: Column<'a>) -> Result<(), AllocError>
    requires rising { AreRising id_of columns.old.items }
    ensures { OnOk result (columns.new.items ≡ placed id_of column.entry columns.old.items) }
{
    if is_behind(columns, &column) {
        columns.push(column)?;
        return Ok(());
    }
    let (at, is_held) = place_of(columns, &column);
    if is_held {
        columns.remove(at);
    }
    columns.insert(at, column)?;
    Ok(())
}

/// The columns of these definitions, in byte order of their ids; of one id the last.
pub fn columns<'a>(alloc: Global, defs: &[&'a PropDef]) -> Result<Vec<Column<'a>>, AllocError>
    ensures { IfOk result (λ all. all.items ≡ in_key_order id_of (map pointee defs.now)) }
{
    let mut all = Vec::with_capacity(alloc, defs.len())?;
    for def in defs {
        put(&mut all, Column::of(def))?;
    }
    Ok(all)
}

/// The columns of an object: of the definitions that are shown.
pub fn columns_of<'a>(
    alloc: Global,
    state: &'a State,
    filter: &PropertyFilter,
    x: &Object,
) -> Result<Vec<Column<'a>>, AllocError>
    ensures { IfOk result (λ all. all.items ≡ columns_of state.now filter.now x.now) }
{
    let defs = shown_defs(alloc, state, filter, x)?;
    let all = columns(alloc, &defs)?;
    Ok(all)
}
