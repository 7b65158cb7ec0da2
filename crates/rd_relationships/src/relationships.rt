//! The relationships of an object, a page of them (CMIS 1.1, section 2.2.8.1).
ghost use Rattle.std.specs.Prelude.{◌≡◌, ◌++◌, filter, map, IfOk, OnOk};
ghost use Rattle.cm_map.specs.Parts.{pointee};
ghost use Rattle.cm_base.specs.Judged.{Meets};
ghost use Rattle.rd_relationships.specs.ReadRelationships.{answer_relationships, answer_relationships_of, asked_of, is_of_type, is_unknown, object_if, page_reply};

use cm_base::cause::Cause;
use cm_base::fail::Fail;
use cm_base::object::Object;
use cm_base::text::Text;
use cm_include::included::View;
use cm_relationships::found::relationships_of;
use cm_see::address::addressed;
use cm_state::state::State;
use cm_type_list::types::Types;
use include_parts::readings::ShowRelationships;
use include_parts::replies::IncludedPageReply;
use rd_include::listed::included_page;
use relationship_parts::readings::ReadRelationships;
use std::alloc::{AllocError, Global};

fn is_unknown(types: &Types, kind: &Option<Text>) -> bool
    ensures { result ≡ is_unknown types.now kind.now }
{
    match kind {
        Some(id) => types.find(id).is_none(),
        None => false,
    }
}

fn is_of_type(types: &Types, kind: &Option<Text>, with_subtypes: bool, x: &Object) -> bool
    ensures { result ≡ is_of_type types.now kind.now with_subtypes x.now }
{
    match kind {
        None => true,
        Some(id) => {
            if with_subtypes {
                types.is_below(&x.kind, id)
            } else {
                x.kind.is(id)
            }
        }
    }
}

// Adds the relationship where it is of a type that is asked for.
fn push_asked<'a>(
    all: &mut Vec<&'a Object>,
    types: &Types,
    q: &ReadRelationships,
    x: &'a Object,
) -> Result<(), AllocError>
    ensures { OnOk result (map pointee all.new.items ≡ map pointee all.old.items
        ++ object_if (is_of_type types.now q.now.kind q.now.with_subtypes) x.now) }
{
    if is_of_type(types, &q.kind, q.with_subtypes, x) {
        all.push(x)?;
    }
    Ok(())
}

fn asked_among<'a>(
    alloc: Global,
    types: &Types,
    q: &ReadRelationships,
    objects: &[&'a Object],
) -> Result<Vec<&'a Object>, AllocError>
    ensures { IfOk result (λ all. map pointee all.items
        ≡ filter (is_of_type types.now q.now.kind q.now.with_subtypes) (map pointee objects.now)) }
{
    let mut all = Vec::new(alloc);
    for x in objects {
        push_asked(&mut all, types, q, x)?;
    }
    Ok(all)
}

// The relationships of the object that are asked for, in the order of their numbers.
fn asked_of<'a>(
    alloc: Global,
    state: &'a State,
    user: &Text,
    q: &ReadRelationships,
    x: &Object,
) -> Result<Vec<&'a Object>, AllocError>
    ensures { IfOk result (λ all. map pointee all.items ≡ asked_of state.now user.now q.now x.now) }
{
    let all = relationships_of(alloc, state, user, q.direction, x.id)?;
    let asked = asked_among(alloc, state.types(), q, &all)?;
    Ok(asked)
}

// The objects of the page are shown, and all are counted.
fn page_reply(
    alloc: Global,
    state: &State,
    user: &Text,
    q: &ShowRelationships,
    objects: &[&Object],
) -> Result<IncludedPageReply, AllocError>
    ensures { IfOk result (λ reply. reply ≡ page_reply state.now user.now q.now (map pointee objects.now)) }
{
    let asked = &q.relationships;
    let view = View {
        state,
        user,
        filter: &asked.filter,
        succinct: asked.succinct,
        includes: &q.includes,
    };
    let reply = included_page(alloc, view, asked.skip_count, asked.max_items, objects)?;
    Ok(reply)
}

fn asked_reply(
    alloc: Global,
    state: &State,
    user: &Text,
    q: &ShowRelationships,
    x: &Object,
) -> Result<IncludedPageReply, AllocError>
    ensures { IfOk result (λ reply. reply
        ≡ page_reply state.now user.now q.now (asked_of state.now user.now q.now.relationships x.now)) }
{
    let all = asked_of(alloc, state, user, &q.relationships, x)?;
    let reply = page_reply(alloc, state, user, q, &all)?;
    Ok(reply)
}

fn relationships_at(
    alloc: Global,
    state: &State,
    user: &Text,
    q: &ShowRelationships,
    x: &Object,
) -> Result<IncludedPageReply, Fail>
    ensures { Meets (λ y. y) result (answer_relationships_of state.now user.now q.now x.now) }
{
    if is_unknown(state.types(), &q.relationships.kind) {
        return Err(Fail::Refused(Cause::TypeNotFound));
    }
    let reply = asked_reply(alloc, state, user, q, x)?;
    Ok(reply)
}

/// A page of the relationships that the caller reads, at whose ends the object stands as the direction asks, of the type that is
/// named, in the order of their numbers, with what is asked for beside their properties; and how many these are in all. What he doesn't
/// read is not found, and a type that isn't there is not found. It visits what names the object as an end alone.
pub fn relationships(
    alloc: Global,
    state: &State,
    user: &Text,
    q: &ShowRelationships,
) -> Result<IncludedPageReply, Fail>
    ensures { Meets (λ y. y) result (answer_relationships state.now user.now q.now) }
{
    match addressed(state, user, &q.relationships.place) {
        Some(x) => relationships_at(alloc, state, user, q, x),
        None => Err(Fail::Refused(Cause::NotFound)),
    }
}
