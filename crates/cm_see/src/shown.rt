//! What a reply shows of an object.
ghost use Rattle.std.specs.Prelude.{◌≡◌, map, filter, IfOk};
ghost use Rattle.cm_map.specs.Parts.{pointee};
ghost use Rattle.cm_see.specs.Shown.{passes, shown_defs, shown_object, shown_properties, shown_property, shown_slot};
ghost use Rattle.call_parts.specs.declared.replies.Properties.TheVariants as forms;

use crate::property::property_value;
use call_parts::readings::PropertyFilter;
use call_parts::replies::{Properties, ShownObject, ShownProperties, ShownProperty};
use cm_base::copies::Copies;
use cm_base::items::Items;
use cm_base::object::Object;
use cm_base::text::Text;
use cm_base::value::{Slot, Values};
use cm_state::state::State;
use cm_types::property::PropDef;
use std::alloc::{AllocError, Global};

fn passes(filter: &PropertyFilter, def: &PropDef) -> bool
    ensures { result ≡ passes filter.now def.now }
{
    match filter {
        PropertyFilter::All => true,
        PropertyFilter::QueryNames(names) => {
            def.id.is_str("cmis:objectId") || names.has(&def.query_name)
        }
    }
}

// The definitions that the filter lets pass.
fn passing<'a>(defs: Vec<&'a PropDef>, wanted: &PropertyFilter) -> Vec<&'a PropDef>
    ensures { map pointee result.items ≡ filter (passes wanted.now) (map pointee defs.entry.items) }
{
    let mut defs = defs;
    defs.retain(|def| passes(wanted, def));
    defs
}

/// The definitions of the properties that the filter lets pass, in the order of the object's types.
pub fn shown_defs<'a>(
    alloc: Global,
    state: &'a State,
    filter: &PropertyFilter,
    x: &Object,
) -> Result<Vec<&'a PropDef>, AllocError>
    ensures { IfOk result (λ all. map pointee all.items ≡ shown_defs state.now filter.now x.now) }
{
    let types = state.types();
    let defs = types.props_of(alloc, &x.kind, x.secondary.as_slice())?;
    Ok(passing(defs, filter))
}

fn shown_slot(
    alloc: Global,
    state: &State,
    user: &Text,
    x: &Object,
    def: &PropDef,
) -> Result<Slot, AllocError>
    ensures { IfOk result (λ s. s ≡ shown_slot state.now user.now x.now def.now) }
{
    let value = property_value(alloc, state, user, x, &def.id)?;
    let id = def.id.copied(alloc)?;
    Ok(Slot { id, value })
}

fn shown_property(
    alloc: Global,
    state: &State,
    user: &Text,
    x: &Object,
    def: &PropDef,
) -> Result<ShownProperty, AllocError>
    ensures { IfOk result (λ p. p ≡ shown_property state.now user.now x.now def.now) }
{
    let value = property_value(alloc, state, user, x, &def.id)?;
    Ok(ShownProperty {
        id: def.id.copied(alloc)?,
        local_name: def.local_name.copied(alloc)?,
        display_name: def.display_name.copied(alloc)?,
        query_name: def.query_name.copied(alloc)?,
        kind: def.kind,
        cardinality: def.cardinality,
        value,
    })
}

fn slots(
    alloc: Global,
    state: &State,
    user: &Text,
    x: &Object,
    defs: &[&PropDef],
) -> Result<Values, AllocError>
    ensures { IfOk result (λ all. all ≡ map (shown_slot state.now user.now x.now) (map pointee defs.now)) }
{
    let mut all = Items::new(alloc);
    for def in defs {
        all.push(shown_slot(alloc, state, user, x, def)?)?;
    }
    Ok(all)
}

fn full(
    alloc: Global,
    state: &State,
    user: &Text,
    x: &Object,
    defs: &[&PropDef],
) -> Result<ShownProperties, AllocError>
    ensures { IfOk result (λ all. all ≡ map (shown_property state.now user.now x.now) (map pointee defs.now)) }
{
    let mut all = Items::new(alloc);
    for def in defs {
        all.push(shown_property(alloc, state, user, x, def)?)?;
    }
    Ok(all)
}

fn shown_properties(
    alloc: Global,
    state: &State,
    user: &Text,
    filter: &PropertyFilter,
    succinct: bool,
    x: &Object,
) -> Result<Properties, AllocError>
    ensures { IfOk result (λ p. p ≡ shown_properties state.now user.now filter.now succinct x.now) }
{
    let defs = shown_defs(alloc, state, filter, x)?;
    if succinct {
        let values = slots(alloc, state, user, x, &defs)?;
        Ok(Properties::Succinct(values))
    } else {
        let properties = full(alloc, state, user, x, &defs)?;
        Ok(Properties::Full(properties))
    }
}

/// The object as the caller sees it, in full or in succinct form, with the properties that the filter lets pass. The caller is to read it.
pub fn shown_object(
    alloc: Global,
    state: &State,
    user: &Text,
    filter: &PropertyFilter,
    succinct: bool,
    x: &Object,
) -> Result<ShownObject, AllocError>
    ensures { IfOk result (λ o. o ≡ shown_object state.now user.now filter.now succinct x.now) }
{
    let properties = shown_properties(alloc, state, user, filter, succinct, x)?;
    Ok(ShownObject { properties })
}
