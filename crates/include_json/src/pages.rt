//! Lists and pages of objects that are shown with more than their properties.
ghost use Rattle.std.specs.Prelude.{◌≡◌, codes, fold, map, IfOk, OnOk};
ghost use Rattle.json_text.specs.Build.{with_field};
ghost use Rattle.json_text.specs.Shown.{data_of, fields_of, listed};
ghost use Rattle.include_json.specs.Included.{included_data};
ghost use Rattle.include_json.specs.Pages.{children_data, member_data, named_fields, objects_data, page_data, parents_data, reply_data};

use crate::included::included_json;
use cm_base::text::Text;
use include_parts::replies::{
    IncludedChildrenReply, IncludedMember, IncludedObject, IncludedObjectsReply, IncludedPageReply,
    IncludedParentsReply, IncludedReply,
};
use json_text::tree::{Elements, Fields, Json};
use std::alloc::{AllocError, Global};

/// One object.
pub fn reply_json(alloc: Global, reply: &IncludedReply) -> Result<Json, AllocError>
    ensures { IfOk result (λ j. data_of j ≡ reply_data reply.now) }
{
    included_json(alloc, &reply.object)
}

fn put_name(
    alloc: Global,
    fields: &mut Fields,
    key: &str,
    name: &Option<Text>,
) -> Result<(), AllocError>
    ensures { OnOk result (fields_of fields.new
        ≡ fold with_field (fields_of fields.old) (named_fields key.now name.now)) }
{
    match name {
        Some(name) => fields.put(alloc, key, Json::text(alloc, name.as_str())?),
        None => Ok(()),
    }
}

/// An object, with its name in a folder under this key where it is shown.
#[tactic(auto, unfolding(crate::specs::Pages::member_data))]
pub fn member_json(alloc: Global, key: &str, member: &IncludedMember) -> Result<Json, AllocError>
    ensures { IfOk result (λ j. data_of j ≡ member_data key.now member.now) }
{
    let object = included_json(alloc, &member.object)?;
    let mut fields = Fields::new(alloc);
    fields.put(alloc, "object", object)?;
    put_name(alloc, &mut fields, key, &member.segment)?;
    Ok(Json::object(fields))
}

fn each_member(alloc: Global, key: &str, members: &[IncludedMember]) -> Result<Elements, AllocError>
    ensures { IfOk result (λ e. listed e ≡ map (member_data key.now) members.now) }
{
    let mut elements = Elements::new(alloc);
    for member in members {
        elements.push(member_json(alloc, key, member)?)?;
    }
    Ok(elements)
}

/// A page of the children of a folder, each with its name where that is shown.
#[tactic(auto, unfolding(crate::specs::Pages::children_data))]
pub fn children_json(alloc: Global, reply: &IncludedChildrenReply) -> Result<Json, AllocError>
    ensures { IfOk result (λ j. data_of j ≡ children_data reply.now) }
{
    let objects = each_member(alloc, "pathSegment", reply.children.as_slice())?;
    let mut fields = Fields::new(alloc);
    fields.put(alloc, "objects", Json::array(objects))?;
    fields.put(alloc, "hasMoreItems", Json::flag(reply.has_more_items))?;
    fields.put(alloc, "numItems", Json::count(reply.num_items))?;
    Ok(Json::object(fields))
}

fn each_included(alloc: Global, objects: &[IncludedObject]) -> Result<Elements, AllocError>
    ensures { IfOk result (λ e. listed e ≡ map included_data objects.now) }
{
    let mut elements = Elements::new(alloc);
    for object in objects {
        elements.push(included_json(alloc, object)?)?;
    }
    Ok(elements)
}

/// A page of objects.
#[tactic(auto, unfolding(crate::specs::Pages::page_data))]
pub fn page_json(alloc: Global, reply: &IncludedPageReply) -> Result<Json, AllocError>
    ensures { IfOk result (λ j. data_of j ≡ page_data reply.now) }
{
    let objects = each_included(alloc, reply.objects.as_slice())?;
    let mut fields = Fields::new(alloc);
    fields.put(alloc, "objects", Json::array(objects))?;
    fields.put(alloc, "hasMoreItems", Json::flag(reply.has_more_items))?;
    fields.put(alloc, "numItems", Json::count(reply.num_items))?;
    Ok(Json::object(fields))
}

/// Objects in their order.
pub fn objects_json(alloc: Global, reply: &IncludedObjectsReply) -> Result<Json, AllocError>
    ensures { IfOk result (λ j. data_of j ≡ objects_data reply.now) }
{
    let elements = each_included(alloc, reply.objects.as_slice())?;
    Ok(Json::array(elements))
}

/// The folders of an object, each with the object's name in it where that is shown.
pub fn parents_json(alloc: Global, reply: &IncludedParentsReply) -> Result<Json, AllocError>
    ensures { IfOk result (λ j. data_of j ≡ parents_data reply.now) }
{
    let elements = each_member(alloc, "relativePathSegment", reply.parents.as_slice())?;
    Ok(Json::array(elements))
}
