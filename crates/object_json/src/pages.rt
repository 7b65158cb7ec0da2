//! Pages of objects as JSON.
ghost use Rattle.std.specs.Prelude.{◌≡◌, map, IfOk};
ghost use Rattle.json_text.specs.Shown.{data_of, listed};
ghost use Rattle.object_json.specs.Pages.{child_data, children_data};

use crate::objects::{alone, object_json};
use call_parts::replies::{ChildrenReply, ShownObject};
use json_text::tree::{Elements, Fields, Json};
use std::alloc::{AllocError, Global};

fn child_json(alloc: Global, object: &ShownObject) -> Result<Json, AllocError>
    ensures { IfOk result (λ j. data_of j ≡ child_data object.now) }
{
    let json = object_json(alloc, object)?;
    alone(alloc, "object", json)
}

fn each_child(alloc: Global, objects: &[ShownObject]) -> Result<Elements, AllocError>
    ensures { IfOk result (λ e. listed e ≡ map child_data objects.now) }
{
    let mut elements = Elements::new(alloc);
    for object in objects {
        elements.push(child_json(alloc, object)?)?;
    }
    Ok(elements)
}

/// A page of the children of a folder.
#[tactic(auto, unfolding(crate::specs::Pages::children_data))]
pub fn children_json(alloc: Global, reply: &ChildrenReply) -> Result<Json, AllocError>
    ensures { IfOk result (λ j. data_of j ≡ children_data reply.now) }
{
    let objects = each_child(alloc, reply.objects.as_slice())?;
    let mut fields = Fields::new(alloc);
    fields.put(alloc, "objects", Json::array(objects))?;
    fields.put(alloc, "hasMoreItems", Json::flag(reply.has_more_items))?;
    fields.put(alloc, "numItems", Json::count(reply.num_items))?;
    Ok(Json::object(fields))
}
