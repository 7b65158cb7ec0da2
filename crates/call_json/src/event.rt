//! One event as JSON.
ghost use Rattle.std.specs.Prelude.{◌≡◌, [], ◌∷◌, IfOk, OnOk, decimal, string_bytes};
ghost use Rattle.serde_json.specs.Data.{string};
ghost use Rattle.json_text.specs.Build.{with_field};
ghost use Rattle.json_text.specs.Shown.{data_of, fields_of};
ghost use Rattle.object_json.specs.Objects.{properties_data, properties_of_object, property_data, values_data};
ghost use Rattle.call_json.specs.Changes.{by_id_alone, change_word, event_data, event_info, id_property, id_slot};

use cm_base::log::ChangeKind;
use cm_base::number::Oid;
use cm_types::property::{Cardinality, PropertyKind};
use json_text::tree::{Fields, Json};
use log_parts::replies::ShownEvent;
use object_json::objects::alone;
use std::alloc::{AllocError, Global};
use type_keys::word::Worded;

const OBJECT_ID: &str = "cmis:objectId";

fn digits(alloc: Global, number: u64) -> Result<String, AllocError>
    ensures { IfOk result (λ s. string_bytes s ≡ decimal number) }
{
    format!(in alloc; "{number}")
}

/// A number in decimal, as a string.
pub(crate) fn digits_json(alloc: Global, number: u64) -> Result<Json, AllocError>
    ensures { IfOk result (λ j. data_of j ≡ string (decimal number)) }
{
    let digits = digits(alloc, number)?;
    Json::text(alloc, digits.as_str())
}

fn change_word(kind: ChangeKind) -> &'static str
    ensures { result.now ≡ change_word kind }
{
    match kind {
        ChangeKind::Created => "created",
        ChangeKind::Updated => "updated",
        ChangeKind::Deleted => "deleted",
        ChangeKind::Security => "security",
    }
}

// The property with what its definition says of it.
#[tactic(auto, unfolding(object_json::specs::Objects::property_data))]
fn property_json(alloc: Global, object: Oid) -> Result<Json, AllocError>
    ensures { IfOk result (λ j. data_of j ≡ property_data (id_property object)) }
{
    let mut fields = Fields::new(alloc);
    fields.put(alloc, "id", Json::text(alloc, OBJECT_ID)?)?;
    fields.put(alloc, "localName", Json::text(alloc, OBJECT_ID)?)?;
    fields.put(alloc, "displayName", Json::text(alloc, OBJECT_ID)?)?;
    fields.put(alloc, "queryName", Json::text(alloc, OBJECT_ID)?)?;
    fields.put(alloc, "type", Json::text(alloc, PropertyKind::Id.word())?)?;
    fields.put(
        alloc,
        "cardinality",
        Json::text(alloc, Cardinality::Single.word())?,
    )?;
    fields.put(alloc, "value", digits_json(alloc, object.0)?)?;
    Ok(Json::object(fields))
}

fn full_json(alloc: Global, object: Oid) -> Result<Json, AllocError>
    ensures { IfOk result (λ j. data_of j ≡ properties_data (id_property object ∷ [])) }
{
    let json = property_json(alloc, object)?;
    alone(alloc, OBJECT_ID, json)
}

fn succinct_json(alloc: Global, object: Oid) -> Result<Json, AllocError>
    ensures { IfOk result (λ j. data_of j ≡ values_data (id_slot object ∷ [])) }
{
    let json = digits_json(alloc, object.0)?;
    alone(alloc, OBJECT_ID, json)
}

fn put_id(alloc: Global, fields: &mut Fields, succinct: bool, object: Oid) -> Result<(), AllocError>
    ensures { OnOk result (fields_of fields.new
        ≡ with_field (fields_of fields.old) (properties_of_object (by_id_alone succinct object))) }
{
    if succinct {
        let json = succinct_json(alloc, object)?;
        fields.put(alloc, "succinctProperties", json)
    } else {
        let json = full_json(alloc, object)?;
        fields.put(alloc, "properties", json)
    }
}

fn info_json(alloc: Global, event: &ShownEvent) -> Result<Json, AllocError>
    ensures { IfOk result (λ j. data_of j ≡ event_info event.now) }
{
    let word = Json::text(alloc, change_word(event.kind))?;
    let mut fields = Fields::new(alloc);
    fields.put(alloc, "changeType", word)?;
    fields.put(alloc, "changeTime", Json::whole(event.moment.0))?;
    Ok(Json::object(fields))
}

/// An event: the object by its id, what happened to it, and when.
pub(crate) fn event_json(
    alloc: Global,
    succinct: bool,
    event: &ShownEvent,
) -> Result<Json, AllocError>
    ensures { IfOk result (λ j. data_of j ≡ event_data succinct event.now) }
{
    let info = info_json(alloc, event)?;
    let mut fields = Fields::new(alloc);
    put_id(alloc, &mut fields, succinct, event.object)?;
    fields.put(alloc, "changeEventInfo", info)?;
    Ok(Json::object(fields))
}
