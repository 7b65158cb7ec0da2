//! Lists of objects that are not cut into pages, as JSON.
ghost use Rattle.std.specs.Prelude.{◌≡◌, map, IfOk};
ghost use Rattle.json_text.specs.Shown.{data_of, listed};
ghost use Rattle.object_json.specs.Objects.{shown_data};
ghost use Rattle.object_json.specs.Lists.{objects_data};

use crate::objects::object_json;
use call_parts::replies::{ObjectsReply, ShownObject};
use json_text::tree::{Elements, Json};
use std::alloc::{AllocError, Global};

fn each_object(alloc: Global, objects: &[ShownObject]) -> Result<Elements, AllocError>
    ensures { IfOk result (λ e. listed e ≡ map shown_data objects.now) }
{
    let mut elements = Elements::new(alloc);
    for object in objects {
        elements.push(object_json(alloc, object)?)?;
    }
    Ok(elements)
}

/// Objects in their order.
pub fn objects_json(alloc: Global, reply: &ObjectsReply) -> Result<Json, AllocError>
    ensures { IfOk result (λ j. data_of j ≡ objects_data reply.now) }
{
    let elements = each_object(alloc, reply.objects.as_slice())?;
    Ok(Json::array(elements))
}
