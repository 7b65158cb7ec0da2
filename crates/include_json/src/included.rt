//! Objects that are shown with more than their properties.
ghost use Rattle.std.specs.Prelude.{◌≡◌, fold, map, IfOk, OnOk, Some};
ghost use Rattle.serde_json.specs.Data.{string};
ghost use Rattle.json_text.specs.Build.{with_field};
ghost use Rattle.json_text.specs.Shown.{data_of, fields_of, listed};
ghost use Rattle.object_json.specs.Objects.{properties_data, properties_of_object, shown_data, values_data};
ghost use Rattle.include_json.specs.Included.{acl_fields, action_fields, fields_beside, ids_data, included_data, policy_fields, relationship_fields, rendition_fields};

use action_parts::replies::AllowableActions;
use call_json::actions::flags_json;
use call_json::renditions::renditions_json;
use call_parts::replies::{AclReply, Properties, ShownObject, ShownObjects, ShownProperty};
use cm_base::text::{Text, Texts};
use cm_base::value::Slot;
use include_parts::replies::{IncludedObject, ShownBeside};
use json_text::tree::{Elements, Fields, Json};
use json_text::values::value_json;
use object_json::access::acl_json;
use object_json::objects::{alone, object_json, property_json};
use rendition_parts::replies::ShownRenditions;
use std::alloc::{AllocError, Global};

fn properties_json(alloc: Global, properties: &[ShownProperty]) -> Result<Json, AllocError>
    ensures { IfOk result (λ j. data_of j ≡ properties_data properties.now) }
{
    let mut fields = Fields::new(alloc);
    for property in properties {
        fields.put(alloc, property.id.as_str(), property_json(alloc, property)?)?;
    }
    Ok(Json::object(fields))
}

fn values_json(alloc: Global, slots: &[Slot]) -> Result<Json, AllocError>
    ensures { IfOk result (λ j. data_of j ≡ values_data slots.now) }
{
    let mut fields = Fields::new(alloc);
    for slot in slots {
        fields.put(alloc, slot.id.as_str(), value_json(alloc, &slot.value)?)?;
    }
    Ok(Json::object(fields))
}

fn put_properties(
    alloc: Global,
    fields: &mut Fields,
    properties: &Properties,
) -> Result<(), AllocError>
    ensures { OnOk result (fields_of fields.new
        ≡ with_field (fields_of fields.old) (properties_of_object properties.now)) }
{
    match properties {
        Properties::Full(all) => {
            let json = properties_json(alloc, all.as_slice())?;
            fields.put(alloc, "properties", json)
        }
        Properties::Succinct(slots) => {
            let json = values_json(alloc, slots.as_slice())?;
            fields.put(alloc, "succinctProperties", json)
        }
    }
}

fn put_actions(
    alloc: Global,
    fields: &mut Fields,
    actions: &Option<AllowableActions>,
) -> Result<(), AllocError>
    ensures { OnOk result (fields_of fields.new ≡ fold with_field (fields_of fields.old) (action_fields actions.now)) }
{
    match actions {
        Some(actions) => fields.put(
            alloc,
            "allowableActions",
            flags_json(alloc, actions.as_slice())?,
        ),
        None => Ok(()),
    }
}

fn each_id(alloc: Global, ids: &[Text]) -> Result<Elements, AllocError>
    ensures { IfOk result (λ e. listed e ≡ map string ids.now) }
{
    let mut elements = Elements::new(alloc);
    for id in ids {
        elements.push(Json::text(alloc, id.as_str())?)?;
    }
    Ok(elements)
}

fn ids_json(alloc: Global, ids: &[Text]) -> Result<Json, AllocError>
    ensures { IfOk result (λ j. data_of j ≡ ids_data ids.now) }
{
    let elements = each_id(alloc, ids)?;
    alone(alloc, "ids", Json::array(elements))
}

fn put_policy_ids(alloc: Global, fields: &mut Fields, ids: &Option<Texts>) -> Result<(), AllocError>
    ensures { OnOk result (fields_of fields.new ≡ fold with_field (fields_of fields.old) (policy_fields ids.now)) }
{
    match ids {
        Some(ids) => fields.put(alloc, "policyIds", ids_json(alloc, ids.as_slice())?),
        None => Ok(()),
    }
}

fn each_object(alloc: Global, objects: &[ShownObject]) -> Result<Elements, AllocError>
    ensures { IfOk result (λ e. listed e ≡ map shown_data objects.now) }
{
    let mut elements = Elements::new(alloc);
    for object in objects {
        elements.push(object_json(alloc, object)?)?;
    }
    Ok(elements)
}

fn put_relationships(
    alloc: Global,
    fields: &mut Fields,
    objects: &Option<ShownObjects>,
) -> Result<(), AllocError>
    ensures { OnOk result (fields_of fields.new
        ≡ fold with_field (fields_of fields.old) (relationship_fields objects.now)) }
{
    match objects {
        Some(objects) => {
            let elements = each_object(alloc, objects.as_slice())?;
            fields.put(alloc, "relationships", Json::array(elements))
        }
        None => Ok(()),
    }
}

fn put_renditions(
    alloc: Global,
    fields: &mut Fields,
    renditions: &Option<ShownRenditions>,
) -> Result<(), AllocError>
    ensures { OnOk result (fields_of fields.new
        ≡ fold with_field (fields_of fields.old) (rendition_fields renditions.now)) }
{
    match renditions {
        Some(renditions) => fields.put(
            alloc,
            "renditions",
            renditions_json(alloc, renditions.as_slice())?,
        ),
        None => Ok(()),
    }
}

// The access control list, which is exact.
fn put_list(alloc: Global, fields: &mut Fields, reply: &AclReply) -> Result<(), AllocError>
    ensures { OnOk result (fields_of fields.new
        ≡ fold with_field (fields_of fields.old) (acl_fields (Some reply.now))) }
{
    fields.put(alloc, "acl", acl_json(alloc, reply)?)?;
    fields.put(alloc, "exactACL", Json::flag(true))
}

fn put_acl(alloc: Global, fields: &mut Fields, acl: &Option<AclReply>) -> Result<(), AllocError>
    ensures { OnOk result (fields_of fields.new ≡ fold with_field (fields_of fields.old) (acl_fields acl.now)) }
{
    match acl {
        Some(reply) => put_list(alloc, fields, reply),
        None => Ok(()),
    }
}

/// What is shown beside the properties, behind the fields that are there.
pub fn put_beside(
    alloc: Global,
    fields: &mut Fields,
    beside: &ShownBeside,
) -> Result<(), AllocError>
    ensures { OnOk result (fields_of fields.new ≡ fold with_field (fields_of fields.old) (fields_beside beside.now)) }
{
    put_acl(alloc, fields, &beside.acl)?;
    put_actions(alloc, fields, &beside.actions)?;
    put_policy_ids(alloc, fields, &beside.policy_ids)?;
    put_relationships(alloc, fields, &beside.relationships)?;
    put_renditions(alloc, fields, &beside.renditions)?;
    Ok(())
}

/// An object: its properties in full or in succinct form, and what is shown beside them.
#[tactic(auto, unfolding(crate::specs::Included::included_data))]
pub fn included_json(alloc: Global, object: &IncludedObject) -> Result<Json, AllocError>
    ensures { IfOk result (λ j. data_of j ≡ included_data object.now) }
{
    let mut fields = Fields::new(alloc);
    put_properties(alloc, &mut fields, &object.object.properties)?;
    put_beside(alloc, &mut fields, &object.beside)?;
    Ok(Json::object(fields))
}
