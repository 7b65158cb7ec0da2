//! One type, and a page of types.
ghost use Rattle.std.specs.Prelude.{◌≡◌, map, IfOk};
ghost use Rattle.json_text.specs.Shown.{data_of, listed};
ghost use Rattle.type_show.specs.Showing.{type_data};
ghost use Rattle.type_replies.specs.Types.{definition_data, types_data};

use cm_types::definition::TypeDef;
use json_text::tree::{Elements, Fields, Json};
use std::alloc::{AllocError, Global};
use type_parts::replies::{TypeReply, TypesReply};
use type_show::show::type_value;

/// A type, with its property definitions.
pub fn type_json(alloc: Global, reply: &TypeReply) -> Result<Json, AllocError>
    ensures { IfOk result (λ j. data_of j ≡ definition_data reply.now) }
{
    type_value(alloc, &reply.definition, true)
}

fn each_type(
    alloc: Global,
    property_definitions: bool,
    types: &[TypeDef],
) -> Result<Elements, AllocError>
    ensures { IfOk result (λ e. listed e ≡ map (type_data property_definitions) types.now) }
{
    let mut elements = Elements::new(alloc);
    for def in types {
        elements.push(type_value(alloc, def, property_definitions)?)?;
    }
    Ok(elements)
}

/// A page of types.
#[tactic(auto, unfolding(crate::specs::Types::types_data))]
pub fn types_json(alloc: Global, reply: &TypesReply) -> Result<Json, AllocError>
    ensures { IfOk result (λ j. data_of j ≡ types_data reply.now) }
{
    let types = each_type(alloc, reply.property_definitions, reply.types.as_slice())?;
    let mut fields = Fields::new(alloc);
    fields.put(alloc, "types", Json::array(types))?;
    fields.put(alloc, "hasMoreItems", Json::flag(reply.has_more_items))?;
    fields.put(alloc, "numItems", Json::count(reply.num_items))?;
    Ok(Json::object(fields))
}
