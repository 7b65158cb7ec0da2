//! The values that a row has.
ghost use Rattle.std.specs.Prelude.{◌≡◌, ◌++◌, [], ◌∷◌, map, IfOk, OnOk};
ghost use Rattle.cm_map.specs.Parts.{pointee};
ghost use Rattle.cm_see.specs.Seen.{value_seen};
ghost use Rattle.cm_see.specs.Shown.{property_value, shown_slot};
ghost use Rattle.row_store.specs.Rows.{queryable_values};
ghost use Rattle.state_rows.specs.Tested.{tested_values};

use cm_base::copies::Copies;
use cm_base::items::Items;
use cm_base::object::Object;
use cm_base::text::Text;
use cm_base::value::{Scalar, Slot, Value, Values};
use cm_see::seen::{PropertyValue, kept_seen, system_seen};
use cm_see::system::find_system;
use cm_state::state::State;
use cm_types::property::PropDef;
use ql_eval::eval::tests;
use row_store::search::Search;
use std::alloc::{AllocError, Global};

// The value that is seen, as a value of its own.
fn owned(alloc: Global, seen: PropertyValue<'_>) -> Result<Value, AllocError>
    ensures { IfOk result (λ v. v ≡ value_seen seen.entry) }
{
    match seen {
        PropertyValue::Text(text) => {
            let text = Text::from_str(alloc, text)?;
            Ok(Value::One(Scalar::Words(text)))
        }
        PropertyValue::Digits(n) => {
            let digits = format!(in alloc; "{n}")?;
            Ok(Value::One(Scalar::Words(Text::from_string(digits))))
        }
        PropertyValue::Kept(value) => value.copied(alloc),
        PropertyValue::Made(value) => Ok(value),
    }
}

fn property(
    alloc: Global,
    state: &State,
    user: &Text,
    x: &Object,
    id: &Text,
) -> Result<Value, AllocError>
    ensures { IfOk result (λ v. v ≡ property_value state.now user.now x.now id.now) }
{
    match find_system(id.as_str()) {
        Some(property) => {
            let seen = system_seen(alloc, state, user, x, property)?;
            owned(alloc, seen)
        }
        None => owned(alloc, kept_seen(x.values.as_slice(), id)),
    }
}

fn slot(
    alloc: Global,
    state: &State,
    user: &Text,
    x: &Object,
    def: &PropDef,
) -> Result<Slot, AllocError>
    ensures { IfOk result (λ s. s ≡ shown_slot state.now user.now x.now def.now) }
{
    let value = property(alloc, state, user, x, &def.id)?;
    let id = def.id.copied(alloc)?;
    Ok(Slot { id, value })
}

// Adds the value of the property where it is queryable.
fn push_queryable(
    all: &mut Values,
    alloc: Global,
    state: &State,
    user: &Text,
    x: &Object,
    def: &PropDef,
) -> Result<(), AllocError>
    ensures { OnOk result (all.new ≡ all.old ++ queryable_values state.now user.now x.now (def.now ∷ [])) }
{
    if def.queryable {
        all.push(slot(alloc, state, user, x, def)?)?;
    }
    Ok(())
}

/// Of these properties, the queryable ones as the user sees them.
pub(crate) fn queryable_values(
    alloc: Global,
    state: &State,
    user: &Text,
    x: &Object,
    defs: &[&PropDef],
) -> Result<Values, AllocError>
    ensures { IfOk result (λ all. all ≡ queryable_values state.now user.now x.now (map pointee defs.now)) }
{
    let mut all = Items::new(alloc);
    for def in defs {
        push_queryable(&mut all, alloc, state, user, x, def)?;
    }
    Ok(all)
}

// Adds the value of the property where it is queryable and the condition names it.
fn push_tested(
    all: &mut Values,
    alloc: Global,
    state: &State,
    search: &Search<'_>,
    x: &Object,
    def: &PropDef,
) -> Result<(), AllocError>
    ensures { OnOk result (all.new ≡ all.old ++ tested_values state.now search.now x.now (def.now ∷ [])) }
{
    if def.queryable && tests(search.bound, &def.id) {
        all.push(slot(alloc, state, search.user, x, def)?)?;
    }
    Ok(())
}

/// Of these properties, the queryable ones that the condition names, as the user sees them.
pub(crate) fn tested_values(
    alloc: Global,
    state: &State,
    search: &Search<'_>,
    x: &Object,
    defs: &[&PropDef],
) -> Result<Values, AllocError>
    ensures { IfOk result (λ all. all ≡ tested_values state.now search.now x.now (map pointee defs.now)) }
{
    let mut all = Items::new(alloc);
    for def in defs {
        push_tested(&mut all, alloc, state, search, x, def)?;
    }
    Ok(all)
}
