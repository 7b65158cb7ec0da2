//! The objects that were changed, as JSON.
ghost use Rattle.std.specs.Prelude.{◌≡◌, map, decimal, string_bytes, IfOk};
ghost use Rattle.serde_json.specs.Data.{string};
ghost use Rattle.json_text.specs.Shown.{data_of, listed};
ghost use Rattle.call_json.specs.Updated.{updated_data, updated_objects_data};

use bulk_parts::replies::{UpdatedObject, UpdatedObjects};
use json_text::tree::{Elements, Fields, Json};
use std::alloc::{AllocError, Global};

fn digits(alloc: Global, number: u64) -> Result<String, AllocError>
    ensures { IfOk result (λ s. string_bytes s ≡ decimal number) }
{
    format!(in alloc; "{number}")
}

// A number in decimal, as a string.
fn digits_json(alloc: Global, number: u64) -> Result<Json, AllocError>
    ensures { IfOk result (λ j. data_of j ≡ string (decimal number)) }
{
    let digits = digits(alloc, number)?;
    Json::text(alloc, digits.as_str())
}

#[tactic(auto, unfolding(crate::specs::Updated::updated_data))]
fn updated_json(alloc: Global, object: &UpdatedObject) -> Result<Json, AllocError>
    ensures { IfOk result (λ j. data_of j ≡ updated_data object.now) }
{
    let mut fields = Fields::new(alloc);
    fields.put(alloc, "changeToken", digits_json(alloc, object.token)?)?;
    fields.put(alloc, "id", digits_json(alloc, object.id.0)?)?;
    fields.put(alloc, "newId", digits_json(alloc, object.id.0)?)?;
    Ok(Json::object(fields))
}

fn each_object(alloc: Global, objects: &[UpdatedObject]) -> Result<Elements, AllocError>
    ensures { IfOk result (λ e. listed e ≡ map updated_data objects.now) }
{
    let mut elements = Elements::new(alloc);
    for object in objects {
        elements.push(updated_json(alloc, object)?)?;
    }
    Ok(elements)
}

/// The objects that a bulkUpdate changed, in their order, each with its change token. An update makes no new object, so that the new id
/// is the old one.
pub fn updated_objects_json(alloc: Global, reply: &UpdatedObjects) -> Result<Json, AllocError>
    ensures { IfOk result (λ j. data_of j ≡ updated_objects_data reply.now) }
{
    let objects = each_object(alloc, reply.as_slice())?;
    Ok(Json::array(objects))
}
