//! Pages of the change log as JSON.
ghost use Rattle.std.specs.Prelude.{◌≡◌, map, IfOk};
ghost use Rattle.json_text.specs.Shown.{data_of, listed};
ghost use Rattle.call_json.specs.Changes.{changes_data, event_data};

use crate::event::{digits_json, event_json};
use json_text::tree::{Elements, Fields, Json};
use log_parts::replies::{ChangesReply, ShownEvent};
use std::alloc::{AllocError, Global};

fn each_event(alloc: Global, succinct: bool, events: &[ShownEvent]) -> Result<Elements, AllocError>
    ensures { IfOk result (λ e. listed e ≡ map (event_data succinct) events.now) }
{
    let mut elements = Elements::new(alloc);
    for event in events {
        elements.push(event_json(alloc, succinct, event)?)?;
    }
    Ok(elements)
}

/// A page of events, and the token from which on to ask for the next ones.
#[tactic(auto, unfolding(crate::specs::Changes::changes_data))]
pub fn changes_json(alloc: Global, reply: &ChangesReply) -> Result<Json, AllocError>
    ensures { IfOk result (λ j. data_of j ≡ changes_data reply.now) }
{
    let events = each_event(alloc, reply.succinct, reply.events.as_slice())?;
    let token = digits_json(alloc, reply.token)?;
    let mut fields = Fields::new(alloc);
    fields.put(alloc, "objects", Json::array(events))?;
    fields.put(alloc, "hasMoreItems", Json::flag(reply.has_more_items))?;
    fields.put(alloc, "numItems", Json::count(reply.num_items))?;
    fields.put(alloc, "changeLogToken", token)?;
    Ok(Json::object(fields))
}
