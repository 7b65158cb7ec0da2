//! Replies as they are sent.
ghost use Rattle.std.specs.Prelude.{◌≡◌, Some, IfOk};
ghost use Rattle.bind_json.specs.Replies.{status_of, shown_left, shown_reply};

use call_json::actions::actions_json;
use call_json::changes::changes_json;
use call_json::left::left_json;
use call_json::renditions::reply_json;
use call_json::updated::updated_objects_json;
use call_parts::replies::ContentReply;
use cm_base::body::Body;
use cm_base::copies::Copies;
use cm_base::shown::Shown;
use cm_call::reply::Reply;
use delete_tree_parts::replies::DeleteTreeReply;
use include_json::pages::{
    children_json, objects_json as included_objects_json, page_json, parents_json,
    reply_json as included_json,
};
use include_json::rows::query_json;
use include_json::tree::tree_json;
use object_json::access::acl_json;
use object_json::lists::objects_json;
use object_json::objects::{object_json, properties_alone_json};
use object_json::sent::{sent, shown_as, shown_nothing};
use std::alloc::{AllocError, Global};
use type_replies::info::info_reply_json;
use type_replies::tree::type_tree_json;
use type_replies::types::{type_json, types_json};

fn status_of(created: bool) -> u16
    ensures { result ≡ status_of created }
{
    if created { 201 } else { 200 }
}

// What is sent of a content, whose bytes are shared.
fn shown_content(alloc: Global, reply: &ContentReply, number: u64) -> Result<Shown, AllocError>
    ensures { IfOk result (λ s. s
        ≡ record { status = 200; kind = reply.now.kind; body = reply.now.body; number = Some number }) }
{
    let kind = reply.kind.copied(alloc)?;
    let body = reply.body.copied(alloc)?;
    Ok(shown_as(200, kind, Body::stream(body), number))
}

// What is sent of the removal of a tree: the ids that are left, if there are any.
fn shown_left(alloc: Global, reply: &DeleteTreeReply, number: u64) -> Result<Shown, AllocError>
    ensures { IfOk result (λ s. s ≡ shown_left reply.now number) }
{
    if reply.ids.as_slice().is_empty() {
        return Ok(shown_nothing(alloc, number));
    }
    let json = left_json(alloc, reply)?;
    sent(alloc, 200, json, number)
}

/// What is sent of a reply that is made at this step: JSON, compact and with the names of each object in byte order, with the
/// status 201 where the call made what is shown, and else 200; the bytes of a content, which are shared, with their type; or nothing, for a removal.
pub fn text_of(alloc: Global, reply: &Reply, number: u64) -> Result<Shown, AllocError>
    ensures { IfOk result (λ s. s ≡ shown_reply reply.now number) }
{
    match reply {
        Reply::Object(reply) => {
            let json = object_json(alloc, &reply.object)?;
            sent(alloc, status_of(reply.created), json, number)
        }
        Reply::Properties(reply) => {
            let json = properties_alone_json(alloc, &reply.object)?;
            sent(alloc, 200, json, number)
        }
        Reply::Included(reply) => {
            let json = included_json(alloc, reply)?;
            sent(alloc, 200, json, number)
        }
        Reply::Type(reply) => {
            let json = type_json(alloc, reply)?;
            sent(alloc, status_of(reply.created), json, number)
        }
        Reply::Children(reply) => {
            let json = children_json(alloc, reply)?;
            sent(alloc, 200, json, number)
        }
        Reply::Types(reply) => {
            let json = types_json(alloc, reply)?;
            sent(alloc, 200, json, number)
        }
        Reply::TypeTree(reply) => {
            let json = type_tree_json(alloc, reply)?;
            sent(alloc, 200, json, number)
        }
        Reply::Info(reply) => {
            let json = info_reply_json(alloc, reply)?;
            sent(alloc, 200, json, number)
        }
        Reply::Objects(reply) => {
            let json = objects_json(alloc, reply)?;
            sent(alloc, 200, json, number)
        }
        Reply::IncludedObjects(reply) => {
            let json = included_objects_json(alloc, reply)?;
            sent(alloc, 200, json, number)
        }
        Reply::Parents(reply) => {
            let json = parents_json(alloc, reply)?;
            sent(alloc, 200, json, number)
        }
        Reply::Acl(reply) => {
            let json = acl_json(alloc, reply)?;
            sent(alloc, 200, json, number)
        }
        Reply::Query(reply) => {
            let json = query_json(alloc, reply)?;
            sent(alloc, 200, json, number)
        }
        Reply::Tree(reply) => {
            let json = tree_json(alloc, reply)?;
            sent(alloc, 200, json, number)
        }
        Reply::Page(reply) => {
            let json = page_json(alloc, reply)?;
            sent(alloc, 200, json, number)
        }
        Reply::Changes(reply) => {
            let json = changes_json(alloc, reply)?;
            sent(alloc, 200, json, number)
        }
        Reply::DeleteTree(reply) => shown_left(alloc, reply, number),
        Reply::Updated(reply) => {
            let json = updated_objects_json(alloc, reply)?;
            sent(alloc, 200, json, number)
        }
        Reply::Renditions(reply) => {
            let json = reply_json(alloc, reply)?;
            sent(alloc, 200, json, number)
        }
        Reply::Actions(reply) => {
            let json = actions_json(alloc, reply)?;
            sent(alloc, 200, json, number)
        }
        Reply::Content(reply) => shown_content(alloc, reply, number),
        Reply::Nothing => Ok(shown_nothing(alloc, number)),
    }
}
