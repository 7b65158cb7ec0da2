//! The objects that a deleteTree leaves, as JSON.
ghost use Rattle.std.specs.Prelude.{◌≡◌, map, decimal, string_bytes, IfOk};
ghost use Rattle.json_text.specs.Shown.{data_of, listed};
ghost use Rattle.call_json.specs.Left.{id_data, left_data};

use cm_base::number::Oid;
use delete_tree_parts::replies::DeleteTreeReply;
use json_text::tree::{Elements, Fields, Json};
use std::alloc::{AllocError, Global};

fn digits(alloc: Global, number: u64) -> Result<String, AllocError>
    ensures { IfOk result (λ s. string_bytes s ≡ decimal number) }
{
    format!(in alloc; "{number}")
}

fn id_json(alloc: Global, n: Oid) -> Result<Json, AllocError>
    ensures { IfOk result (λ j. data_of j ≡ id_data n) }
{
    let digits = digits(alloc, n.0)?;
    Json::text(alloc, digits.as_str())
}

fn each_id(alloc: Global, ids: &[Oid]) -> Result<Elements, AllocError>
    ensures { IfOk result (λ e. listed e ≡ map id_data ids.now) }
{
    let mut elements = Elements::new(alloc);
    for n in ids {
        elements.push(id_json(alloc, *n)?)?;
    }
    Ok(elements)
}

/// The ids of the objects that are left in the tree.
#[tactic(auto, unfolding(crate::specs::Left::left_data))]
pub fn left_json(alloc: Global, reply: &DeleteTreeReply) -> Result<Json, AllocError>
    ensures { IfOk result (λ j. data_of j ≡ left_data reply.now) }
{
    let ids = each_id(alloc, reply.ids.as_slice())?;
    let mut fields = Fields::new(alloc);
    fields.put(alloc, "ids", Json::array(ids))?;
    Ok(Json::object(fields))
}
