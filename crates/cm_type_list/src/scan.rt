//! What holds of some type in the list.
ghost use Rattle.std.specs.Prelude.{◌≡◌, ◌||◌, bytes_eq, map, IfOk};
ghost use Rattle.std.specs.List.{list_any};
ghost use Rattle.cm_map.specs.Parts.{pointee};
ghost use Rattle.cm_types.specs.Types.{is_child_type};
ghost use Rattle.cm_types.specs.Changes.{clashes};
ghost use Rattle.type_requests.specs.Keys.{values_of};

use cm_base::text::Text;
use cm_map::map::Map;
use cm_types::definition::TypeDef;
use cm_types::property::PropDef;
use std::alloc::{AllocError, Global};
use type_requests::rules::clashes;

fn either(a: bool, b: bool) -> bool
    ensures { result ≡ (a || b) }
{
    a || b
}

fn has_name(def: &TypeDef, id: &Text, query_name: &Text) -> bool
    ensures { result ≡ (bytes_eq def.now.id id.now || bytes_eq def.now.query_name query_name.now) }
{
    def.id.is(id) || def.query_name.is(query_name)
}

/// Whether a type has the id or the query name.
pub(crate) fn is_name_taken(types: &Map<Text, TypeDef>, id: &Text, query_name: &Text) -> bool
    ensures { result ≡ list_any (λ t. bytes_eq t.id id.now || bytes_eq t.query_name query_name.now)
        (values_of types.now) }
{
    let mut found = false;
    for entry in types.iter() {
        found = either(found, has_name(&entry.1, id, query_name));
    }
    found
}

fn has_prop(defs: &[PropDef], def: &PropDef) -> bool
    ensures { result ≡ list_any (clashes def.now) defs.now }
{
    defs.iter().any(|d| clashes(def, d))
}

/// Whether a type has a property with the id or the query name of the definition.
pub(crate) fn is_prop_taken(types: &Map<Text, TypeDef>, def: &PropDef) -> bool
    ensures { result ≡ list_any (λ t. list_any (clashes def.now) t.properties) (values_of types.now) }
{
    let mut found = false;
    for entry in types.iter() {
        found = either(found, has_prop(entry.1.properties.as_slice(), def));
    }
    found
}

/// Whether the type is a direct subtype of the one with the id.
pub fn is_child_type(id: &Text, def: &TypeDef) -> bool
    ensures { result ≡ is_child_type id.now def.now }
{
    match &def.parent {
        Some(parent) => id.is(parent),
        None => false,
    }
}

/// Whether a type has the parent.
pub(crate) fn has_child(types: &Map<Text, TypeDef>, id: &Text) -> bool
    ensures { result ≡ list_any (is_child_type id.now) (values_of types.now) }
{
    let mut found = false;
    for entry in types.iter() {
        found = either(found, is_child_type(id, &entry.1));
    }
    found
}

/// All types in order.
pub(crate) fn all_of<'a>(
    alloc: Global,
    types: &'a Map<Text, TypeDef>,
) -> Result<Vec<&'a TypeDef>, AllocError>
    ensures { IfOk result (λ all. map pointee all.items ≡ values_of types.now) }
{
    let mut all = Vec::new(alloc);
    for entry in types.iter() {
        all.push(&entry.1)?;
    }
    Ok(all)
}
