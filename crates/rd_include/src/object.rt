//! An object in the version that is asked for (CMIS 1.1, sections 2.2.4.8, 2.2.4.9, 2.2.7.4 and 2.2.7.5).
ghost use Rattle.std.specs.Prelude.{◌≡◌, IfOk};
ghost use Rattle.cm_base.specs.Judged.{Meets};
ghost use Rattle.rd_include.specs.ShowObject.{answer_included_in, answer_show_object, answer_show_properties, answer_version, answer_version_properties, properties_reply, reply_in};

use crate::version::version_asked;
use call_parts::place::Place;
use call_parts::replies::ObjectReply;
use cm_base::cause::Cause;
use cm_base::fail::Fail;
use cm_base::object::Object;
use cm_base::text::Text;
use cm_include::included::{View, included_object};
use cm_see::address::addressed;
use cm_see::shown::shown_object;
use cm_state::state::State;
use include_parts::readings::{ShowObject, ShowProperties};
use include_parts::replies::IncludedReply;
use std::alloc::{AllocError, Global};

fn included_reply(alloc: Global, view: View<'_>, x: &Object) -> Result<IncludedReply, AllocError>
    ensures { IfOk result (λ reply. reply ≡ reply_in view.entry x.now) }
{
    let object = included_object(alloc, view, x)?;
    Ok(IncludedReply { object })
}

/// The object that is addressed, as the caller sees it, with what is asked for beside its properties. What he doesn't read is not found.
pub fn included(alloc: Global, view: View<'_>, place: &Place) -> Result<IncludedReply, Fail>
    ensures { Meets (λ reply. reply) result (answer_included_in view.entry place.now) }
{
    match addressed(view.state, view.user, place) {
        Some(x) => {
            let reply = included_reply(alloc, view, x)?;
            Ok(reply)
        }
        None => Err(Fail::Refused(Cause::NotFound)),
    }
}

// The version of x that is asked for, with what is shown of it.
fn object_asked(
    alloc: Global,
    state: &State,
    user: &Text,
    q: &ShowObject,
    x: &Object,
) -> Result<IncludedReply, Fail>
    ensures { Meets (λ reply. reply) result (answer_version state.now user.now q.now x.now) }
{
    let view = View {
        state,
        user,
        filter: &q.object.filter,
        succinct: q.object.succinct,
        includes: &q.includes,
    };
    match version_asked(state, user, q.version, x) {
        Some(version) => {
            let reply = included_reply(alloc, view, version)?;
            Ok(reply)
        }
        None => Err(Fail::Refused(Cause::NotFound)),
    }
}

/// The object in the version that is asked for, as the caller sees it, with what is asked for beside its properties. What he doesn't
/// read is not found, and so is a version that there isn't.
pub fn show_object(
    alloc: Global,
    state: &State,
    user: &Text,
    q: &ShowObject,
) -> Result<IncludedReply, Fail>
    ensures { Meets (λ reply. reply) result (answer_show_object state.now user.now q.now) }
{
    match addressed(state, user, &q.object.place) {
        Some(x) => object_asked(alloc, state, user, q, x),
        None => Err(Fail::Refused(Cause::NotFound)),
    }
}

fn properties_reply(
    alloc: Global,
    state: &State,
    user: &Text,
    q: &ShowProperties,
    x: &Object,
) -> Result<ObjectReply, AllocError>
    ensures { IfOk result (λ reply. reply ≡ properties_reply state.now user.now q.now x.now) }
{
    let asked = &q.properties;
    let object = shown_object(alloc, state, user, &asked.filter, asked.succinct, x)?;
    Ok(ObjectReply {
        object,
        created: false,
    })
}

// The version of x that is asked for, with its properties alone.
fn properties_asked(
    alloc: Global,
    state: &State,
    user: &Text,
    q: &ShowProperties,
    x: &Object,
) -> Result<ObjectReply, Fail>
    ensures { Meets (λ reply. reply) result (answer_version_properties state.now user.now q.now x.now) }
{
    match version_asked(state, user, q.version, x) {
        Some(version) => {
            let reply = properties_reply(alloc, state, user, q, version)?;
            Ok(reply)
        }
        None => Err(Fail::Refused(Cause::NotFound)),
    }
}

/// The properties of the version that is asked for, as the caller sees them. What he doesn't read is not found, and so is a version
/// that there isn't.
pub fn show_properties(
    alloc: Global,
    state: &State,
    user: &Text,
    q: &ShowProperties,
) -> Result<ObjectReply, Fail>
    ensures { Meets (λ reply. reply) result (answer_show_properties state.now user.now q.now) }
{
    match addressed(state, user, &q.properties.place) {
        Some(x) => properties_asked(alloc, state, user, q, x),
        None => Err(Fail::Refused(Cause::NotFound)),
    }
}
