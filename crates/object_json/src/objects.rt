//! Objects as JSON.
ghost use Rattle.std.specs.Prelude.{◌≡◌, [], ◌∷◌, IfOk, OnOk};
ghost use Rattle.serde_json.specs.Data.{string};
ghost use Rattle.json_text.specs.Shown.{data_of, fields_of};
ghost use Rattle.json_text.specs.Build.{object_data, with_field};
ghost use Rattle.object_json.specs.Objects.{property_data, properties_data, properties_alone_data, values_data, shown_data};

use call_parts::replies::{Properties, ShownObject, ShownProperty};
use cm_base::value::Slot;
use json_text::tree::{Fields, Json};
use json_text::values::value_json;
use std::alloc::{AllocError, Global};
use type_keys::word::Worded;

// Puts a text at a name.
fn put_text(alloc: Global, fields: &mut Fields, name: &str, text: &str) -> Result<(), AllocError>
    ensures { OnOk result (fields_of fields.new ≡ with_field (fields_of fields.old) (name.now, string text.now)) }
{
    let value = Json::text(alloc, text)?;
    fields.put(alloc, name, value)
}

/// A property with what its definition says of it.
#[tactic(auto, unfolding(crate::specs::Objects::property_data))]
pub fn property_json(alloc: Global, property: &ShownProperty) -> Result<Json, AllocError>
    ensures { IfOk result (λ j. data_of j ≡ property_data property.now) }
{
    let mut fields = Fields::new(alloc);
    put_text(alloc, &mut fields, "id", property.id.as_str())?;
    put_text(
        alloc,
        &mut fields,
        "localName",
        property.local_name.as_str(),
    )?;
    put_text(
        alloc,
        &mut fields,
        "displayName",
        property.display_name.as_str(),
    )?;
    put_text(
        alloc,
        &mut fields,
        "queryName",
        property.query_name.as_str(),
    )?;
    put_text(alloc, &mut fields, "type", property.kind.word())?;
    put_text(
        alloc,
        &mut fields,
        "cardinality",
        property.cardinality.word(),
    )?;
    fields.put(alloc, "value", value_json(alloc, &property.value)?)?;
    Ok(Json::object(fields))
}

fn properties_json(alloc: Global, properties: &[ShownProperty]) -> Result<Json, AllocError>
    ensures { IfOk result (λ j. data_of j ≡ properties_data properties.now) }
{
    let mut fields = Fields::new(alloc);
    for property in properties {
        fields.put(alloc, property.id.as_str(), property_json(alloc, property)?)?;
    }
    Ok(Json::object(fields))
}

fn values_json(alloc: Global, slots: &[Slot]) -> Result<Json, AllocError>
    ensures { IfOk result (λ j. data_of j ≡ values_data slots.now) }
{
    let mut fields = Fields::new(alloc);
    for slot in slots {
        fields.put(alloc, slot.id.as_str(), value_json(alloc, &slot.value)?)?;
    }
    Ok(Json::object(fields))
}

/// An object of one member.
pub fn alone(alloc: Global, name: &str, value: Json) -> Result<Json, AllocError>
    ensures { IfOk result (λ j. data_of j ≡ object_data ((name.now, data_of value) ∷ [])) }
{
    let mut fields = Fields::new(alloc);
    fields.put(alloc, name, value)?;
    Ok(Json::object(fields))
}

/// The properties of an object alone, in full or in succinct form.
pub fn properties_alone_json(alloc: Global, object: &ShownObject) -> Result<Json, AllocError>
    ensures { IfOk result (λ j. data_of j ≡ properties_alone_data object.now) }
{
    match &object.properties {
        Properties::Full(properties) => properties_json(alloc, properties.as_slice()),
        Properties::Succinct(slots) => values_json(alloc, slots.as_slice()),
    }
}

/// An object: its properties in full or in succinct form.
pub fn object_json(alloc: Global, object: &ShownObject) -> Result<Json, AllocError>
    ensures { IfOk result (λ j. data_of j ≡ shown_data object.now) }
{
    match &object.properties {
        Properties::Full(properties) => {
            let json = properties_json(alloc, properties.as_slice())?;
            alone(alloc, "properties", json)
        }
        Properties::Succinct(slots) => {
            let json = values_json(alloc, slots.as_slice())?;
            alone(alloc, "succinctProperties", json)
        }
    }
}
