//! Access control lists as JSON.
ghost use Rattle.std.specs.Prelude.{◌≡◌, map, IfOk};
ghost use Rattle.serde_json.specs.Data.{string};
ghost use Rattle.json_text.specs.Shown.{data_of, listed};
ghost use Rattle.object_json.specs.Access.{ace_data, acl_data, permissions_data, principal_data};

use crate::objects::alone;
use call_parts::replies::{AclReply, ShownAce};
use cm_base::text::Text;
use json_text::tree::{Elements, Fields, Json};
use std::alloc::{AllocError, Global};

fn principal_json(alloc: Global, name: &Text) -> Result<Json, AllocError>
    ensures { IfOk result (λ j. data_of j ≡ principal_data name.now) }
{
    let json = Json::text(alloc, name.as_str())?;
    alone(alloc, "principalId", json)
}

fn each_word(alloc: Global, words: &[Text]) -> Result<Elements, AllocError>
    ensures { IfOk result (λ e. listed e ≡ map string words.now) }
{
    let mut elements = Elements::new(alloc);
    for word in words {
        elements.push(Json::text(alloc, word.as_str())?)?;
    }
    Ok(elements)
}

fn permissions_json(alloc: Global, words: &[Text]) -> Result<Json, AllocError>
    ensures { IfOk result (λ j. data_of j ≡ permissions_data words.now) }
{
    let elements = each_word(alloc, words)?;
    Ok(Json::array(elements))
}

#[tactic(auto, unfolding(crate::specs::Access::ace_data))]
fn ace_json(alloc: Global, ace: &ShownAce) -> Result<Json, AllocError>
    ensures { IfOk result (λ j. data_of j ≡ ace_data ace.now) }
{
    let permissions = permissions_json(alloc, ace.permissions.as_slice())?;
    let principal = principal_json(alloc, &ace.principal)?;
    let mut fields = Fields::new(alloc);
    fields.put(alloc, "isDirect", Json::flag(true))?;
    fields.put(alloc, "permissions", permissions)?;
    fields.put(alloc, "principal", principal)?;
    Ok(Json::object(fields))
}

fn each_ace(alloc: Global, aces: &[ShownAce]) -> Result<Elements, AllocError>
    ensures { IfOk result (λ e. listed e ≡ map ace_data aces.now) }
{
    let mut elements = Elements::new(alloc);
    for ace in aces {
        elements.push(ace_json(alloc, ace)?)?;
    }
    Ok(elements)
}

/// An access control list, which is exact: it has all that is permitted.
#[tactic(auto, unfolding(crate::specs::Access::acl_data))]
pub fn acl_json(alloc: Global, reply: &AclReply) -> Result<Json, AllocError>
    ensures { IfOk result (λ j. data_of j ≡ acl_data reply.now) }
{
    let aces = each_ace(alloc, reply.aces.as_slice())?;
    let mut fields = Fields::new(alloc);
    fields.put(alloc, "aces", Json::array(aces))?;
    fields.put(alloc, "isExact", Json::flag(true))?;
    Ok(Json::object(fields))
}
