//! The content of a document (CMIS 1.1, section 2.2.4.11).
ghost use Rattle.std.specs.Prelude.{◌≡◌, IfOk, option_map};
ghost use Rattle.std.specs.Option.{option_copied};
ghost use Rattle.cm_base.specs.Judged.{Meets};
ghost use Rattle.cmis_spec.specs.Repository.{same};
ghost use Rattle.rd_version.specs.Content.{answer_content, answer_stream, content_in, content_reply, rendition_named, rendition_of, rendition_reply, stream_of};

use call_parts::place::Place;
use call_parts::readings::{ReadContent, STREAM_ID};
use call_parts::replies::ContentReply;
use cm_base::argument::Argument;
use cm_base::cause::Cause;
use cm_base::content::{Content, Rendition};
use cm_base::copies::Copies;
use cm_base::fail::Fail;
use cm_base::number::Oid;
use cm_base::object::Object;
use cm_base::text::Text;
use cm_see::address::addressed;
use cm_see::read::oid_named;
use cm_state::state::State;
use cm_types::definition::BaseType;
use std::alloc::{AllocError, Global};

fn content_reply(alloc: Global, content: &Content) -> Result<ContentReply, AllocError>
    ensures { IfOk result (λ reply. reply ≡ content_reply content.now) }
{
    let kind = content.stream.kind.copied(alloc)?;
    let body = content.stream.pieces.copied(alloc)?;
    Ok(ContentReply { kind, body })
}

fn rendition_reply(alloc: Global, rendition: &Rendition) -> Result<ContentReply, AllocError>
    ensures { IfOk result (λ reply. reply ≡ rendition_reply rendition.now) }
{
    let kind = rendition.media.copied(alloc)?;
    let body = rendition.pieces.copied(alloc)?;
    Ok(ContentReply { kind, body })
}

fn is_of(rendition: &Rendition, x: &Object) -> bool
    ensures { result ≡ same rendition.now.of x.now.id }
{
    rendition.of == x.id
}

// The rendition with this number, where it is one of the object.
fn rendition_of<'a>(state: &'a State, x: &Object, number: Oid) -> Option<&'a Rendition>
    ensures { option_copied result ≡ rendition_of state.now x.now number }
{
    let _step = state.step();
    match state.rendition(number) {
        Some(rendition) => {
            if is_of(rendition, x) {
                Some(rendition)
            } else {
                None
            }
        }
        None => None,
    }
}

// The rendition of the object that has this stream id.
fn rendition_named<'a>(state: &'a State, x: &Object, id: &Text) -> Option<&'a Rendition>
    ensures { option_copied result ≡ rendition_named state.now x.now id.now }
{
    match oid_named(id) {
        Some(number) => rendition_of(state, x, number),
        None => None,
    }
}

// The content, or the rendition that is named.
fn stream_of(
    alloc: Global,
    state: &State,
    x: &Object,
    stream: &Option<Text>,
) -> Result<ContentReply, Fail>
    ensures { Meets (λ reply. reply) result (stream_of state.now x.now stream.now) }
{
    match stream {
        Some(id) => {
            let rendition = rendition_named(state, x, id).ok_or(Cause::BadArgument(Argument::named(
                STREAM_ID,
            )))?;
            let reply = rendition_reply(alloc, rendition)?;
            Ok(reply)
        }
        None => {
            let content = state.content(x.id).ok_or(Cause::NoContent)?;
            let reply = content_reply(alloc, content)?;
            Ok(reply)
        }
    }
}

fn content_in(
    alloc: Global,
    state: &State,
    stream: &Option<Text>,
    x: &Object,
) -> Result<ContentReply, Fail>
    ensures { Meets (λ reply. reply) result (content_in state.now stream.now x.now) }
{
    if !state.is_a(BaseType::Document, x) {
        return Err(Fail::Refused(Cause::WrongKind));
    }
    stream_of(alloc, state, x, stream)
}

/// The bytes of a document's content, or of its rendition with the stream id, and their media type. What the caller doesn't read is
/// not found; what is no document is of the wrong kind. The bytes are shared, or stay in their archive.
pub fn stream(
    alloc: Global,
    state: &State,
    user: &Text,
    place: &Place,
    stream: &Option<Text>,
) -> Result<ContentReply, Fail>
    ensures { Meets (λ reply. reply) result (answer_stream state.now user.now place.now stream.now) }
{
    match addressed(state, user, place) {
        Some(x) => content_in(alloc, state, stream, x),
        None => Err(Fail::Refused(Cause::NotFound)),
    }
}

/// What the selector content asks, as `stream` answers it.
pub fn content(
    alloc: Global,
    state: &State,
    user: &Text,
    q: &ReadContent,
) -> Result<ContentReply, Fail>
    ensures { Meets (λ reply. reply) result (answer_content state.now user.now q.now) }
{
    stream(alloc, state, user, &q.place, &q.stream)
}
