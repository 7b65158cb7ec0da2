//! The machine of the server.
ghost use Rattle.std.specs.Prelude.{◌≡◌, Result, Some, IfOk, is_some, true};
ghost use Rattle.serde_json.specs.Written.{compact_text};
ghost use Rattle.cm_base.specs.declared.object.Object.{Object};
ghost use Rattle.cm_base.specs.Judged.{Meets, Writes};
ghost use Rattle.call_parts.specs.declared.readings.PropertyFilter.TheVariants as filters;
ghost use Rattle.cm_call.specs.declared.write.Write.TheVariants as writes;
ghost use Rattle.cm_see.specs.Shown.{shown_object};
ghost use Rattle.cmis_spec.specs.Repository.{object_at};
ghost use Rattle.object_json.specs.Objects.{shown_data};
ghost use Rattle.object_json.specs.Sent.{shown_json};
ghost use Rattle.desk_model.specs.Halts.{Tells};
ghost use Rattle.cm_repo.specs.Calls.{refusal_of, after};
ghost use Rattle.cm_repo.specs.ServerMachine.{shown_step, shown_answer};
ghost use Rattle.cm_repo.specs.Sent.{sent_write, sent_children, sent_default, sent_found, sent_included, sent_object, sent_stream};

use crate::calls::{read, write};
use bind_json::replies::text_of;
use call_parts::changes::UpdateProperties;
use call_parts::place::Place;
use call_parts::readings::PropertyFilter;
use call_parts::versions::CreateDocument;
use call_parts::writes::CreateFolder;
use cm_base::cause::Cause;
use cm_base::fail::Fail;
use cm_base::number::{Moment, Oid};
use cm_base::object::Object;
use cm_base::shown::Shown;
use cm_base::text::Text;
use cm_call::question::Question;
use cm_call::reply::Reply;
use cm_call::write::Write;
use cm_include::included::View;
use cm_see::address::addressed;
use cm_state::state::State;
use cm_types::definition::BaseType;
use desk_model::{Entry, Halt, Machine};
use include_parts::readings::{ShowChildren, ShowDefault, ShowObject};
use include_text::children::show_children_text;
use include_text::object::{included_object_text, show_object_text};
use object_json::sent::shown_json;
use rd_version::content::stream;
use show_json::one::text_of_object;
use std::alloc::{AllocError, Global};
use wr_change::update::properties_updated;
use wr_object::create_document::document_created;
use wr_object::create_folder::folder_created;

// What is sent of an object that was just made or changed, whose text is written from the state.
fn sent_made(
    alloc: Global,
    status: u16,
    made: &State,
    user: &Text,
    succinct: bool,
    number: Oid,
) -> Result<Shown, AllocError>
    requires there { is_some (object_at made.now number) ≡ true }
    ensures { IfOk result (λ s. (x : Object) → object_at made.now number ≡ Some x
        → s ≡ shown_json status
        (compact_text (shown_data (shown_object made.now user.now filters.All succinct x))) made.now.step) }
{
    let x = made.object(number).unwrap();
    let text = text_of_object(alloc, made, user, &PropertyFilter::All, succinct, x)?;
    let shown = shown_json(alloc, status, text, made.step())?;
    Ok(shown)
}

// A folder that is made, and what is sent of it.
fn sent_folder(
    alloc: Global,
    state: &State,
    user: &Text,
    moment: Moment,
    call: &CreateFolder,
) -> Result<(State, Shown), Fail>
    ensures { Writes result
        (refusal_of state.now user.now moment (writes.CreateFolder call.now))
        (after state.now user.now moment (writes.CreateFolder call.now))
        (sent_write state.now user.now moment (writes.CreateFolder call.now)) }
{
    let number = Oid(state.next_number());
    let made = folder_created(alloc, state, user, moment, call)?;
    let shown = sent_made(alloc, 201, &made, user, call.succinct, number)?;
    Ok((made, shown))
}

// A document that is made, and what is sent of it.
fn sent_document(
    alloc: Global,
    state: &State,
    user: &Text,
    moment: Moment,
    call: &CreateDocument,
) -> Result<(State, Shown), Fail>
    ensures { Writes result
        (refusal_of state.now user.now moment (writes.CreateDocument call.now))
        (after state.now user.now moment (writes.CreateDocument call.now))
        (sent_write state.now user.now moment (writes.CreateDocument call.now)) }
{
    let number = Oid(state.next_number());
    let made = document_created(alloc, state, user, moment, call)?;
    let shown = sent_made(alloc, 201, &made, user, call.succinct, number)?;
    Ok((made, shown))
}

// An object whose properties are changed, and what is sent of it.
fn sent_update(
    alloc: Global,
    state: &State,
    user: &Text,
    moment: Moment,
    call: &UpdateProperties,
) -> Result<(State, Shown), Fail>
    ensures { Writes result
        (refusal_of state.now user.now moment (writes.Update call.now))
        (after state.now user.now moment (writes.Update call.now))
        (sent_write state.now user.now moment (writes.Update call.now)) }
{
    let (made, number) = properties_updated(alloc, state, user, moment, call)?;
    let shown = sent_made(alloc, 200, &made, user, call.succinct, number)?;
    Ok((made, shown))
}

// A write, and what is sent of a reply that is made first.
fn sent_acknowledgement(
    alloc: Global,
    state: &State,
    user: &Text,
    moment: Moment,
    call: &Write,
) -> Result<(State, Shown), Fail>
    ensures { Writes result
        (refusal_of state.now user.now moment call.now)
        (after state.now user.now moment call.now)
        (sent_write state.now user.now moment call.now) }
{
    let (made, reply) = write(alloc, state, user, moment, call)?;
    let shown = text_of(alloc, &reply, made.step())?;
    Ok((made, shown))
}

fn sent_write(
    alloc: Global,
    state: &State,
    user: &Text,
    moment: Moment,
    call: &Write,
) -> Result<(State, Shown), Fail>
    ensures { Writes result
        (refusal_of state.now user.now moment call.now)
        (after state.now user.now moment call.now)
        (sent_write state.now user.now moment call.now) }
{
    match call {
        Write::CreateFolder(call) => sent_folder(alloc, state, user, moment, call),
        Write::CreateDocument(call) => sent_document(alloc, state, user, moment, call),
        Write::Update(call) => sent_update(alloc, state, user, moment, call),
        _ => sent_acknowledgement(alloc, state, user, moment, call),
    }
}

fn shown_step(
    alloc: Global,
    state: &State,
    entry: &Entry<Write>,
) -> Result<(State, Shown), Halt<Cause>>
    ensures { Tells (shown_step state.now entry.now) result }
{
    match sent_write(alloc, state, &entry.user, entry.moment, &entry.call) {
        Ok((made, shown)) => Ok((made, shown)),
        Err(Fail::Refused(cause)) => Err(Halt::Refused(cause)),
        Err(Fail::Memory) => Err(Halt::Memory),
    }
}

// What is sent of a page of children, whose text is written from the state where nothing more is asked for.
#[tactic(auto, using(crate::proofs::Sent::children_sent, crate::proofs::Sent::children_fail))]
fn sent_children(alloc: Global, state: &State, user: &Text, q: &ShowChildren) -> Result<Shown, Fail>
    ensures { Meets (λ s. s) result (sent_children state.now user.now q.now) }
{
    let text = show_children_text(alloc, state, user, q)?;
    let shown = shown_json(alloc, 200, text, state.step())?;
    Ok(shown)
}

// What is sent of an object, whose text is written from the state where nothing more is asked for.
#[tactic(auto, using(crate::proofs::Sent::object_sent, crate::proofs::Sent::object_fails))]
fn sent_object(alloc: Global, state: &State, user: &Text, q: &ShowObject) -> Result<Shown, Fail>
    ensures { Meets (λ s. s) result (sent_object state.now user.now q.now) }
{
    let text = show_object_text(alloc, state, user, q)?;
    let shown = shown_json(alloc, 200, text, state.step())?;
    Ok(shown)
}

// What is sent of an object that is read without a selector.
#[tactic(auto, using(crate::proofs::Sent::object_sent, crate::proofs::Sent::object_fails))]
fn sent_included(alloc: Global, view: View<'_>, place: &Place) -> Result<Shown, Fail>
    ensures { Meets (λ s. s) result (sent_included view.entry place.now) }
{
    let text = included_object_text(alloc, view, place)?;
    let shown = shown_json(alloc, 200, text, view.state.step())?;
    Ok(shown)
}

// What is sent of a content, whose bytes are shared.
fn sent_stream(
    alloc: Global,
    state: &State,
    user: &Text,
    place: &Place,
    asked: &Option<Text>,
) -> Result<Shown, Fail>
    ensures { Meets (λ s. s) result (sent_stream state.now user.now place.now asked.now) }
{
    let reply = stream(alloc, state, user, place, asked)?;
    let shown = text_of(alloc, &Reply::Content(reply), state.step())?;
    Ok(shown)
}

fn sent_found(
    alloc: Global,
    state: &State,
    user: &Text,
    q: &ShowDefault,
    x: &Object,
) -> Result<Shown, Fail>
    ensures { Meets (λ s. s) result (sent_found state.now user.now q.now x.now) }
{
    let asked = &q.children.children;
    if state.is_a(BaseType::Folder, x) {
        return sent_children(alloc, state, user, &q.children);
    }
    if state.is_a(BaseType::Document, x) {
        return sent_stream(alloc, state, user, &asked.place, &q.stream);
    }
    let view = View {
        state,
        user,
        filter: &asked.filter,
        succinct: asked.succinct,
        includes: &q.children.includes,
    };
    sent_included(alloc, view, &asked.place)
}

// What is sent without a selector, by the kind of what is addressed.
fn sent_default(alloc: Global, state: &State, user: &Text, q: &ShowDefault) -> Result<Shown, Fail>
    ensures { Meets (λ s. s) result (sent_default state.now user.now q.now) }
{
    match addressed(state, user, &q.children.children.place) {
        Some(x) => sent_found(alloc, state, user, q, x),
        None => Err(Fail::Refused(Cause::NotFound)),
    }
}

// What is sent of a reply that is made first.
fn sent_reply(alloc: Global, state: &State, user: &Text, question: &Question) -> Result<Shown, Fail>
    ensures { Meets (λ s. s) result (shown_answer state.now user.now question.now) }
{
    let reply = read(alloc, state, user, question)?;
    let shown = text_of(alloc, &reply, state.step())?;
    Ok(shown)
}

fn sent(alloc: Global, state: &State, user: &Text, question: &Question) -> Result<Shown, Fail>
    ensures { Meets (λ s. s) result (shown_answer state.now user.now question.now) }
{
    match question {
        Question::Object(q) => sent_object(alloc, state, user, q),
        Question::Children(q) => sent_children(alloc, state, user, q),
        Question::Default(q) => sent_default(alloc, state, user, q),
        _ => sent_reply(alloc, state, user, question),
    }
}

fn shown_answer(
    alloc: Global,
    state: &State,
    user: &Text,
    question: &Question,
) -> Result<Shown, Halt<Cause>>
    ensures { Tells (shown_answer state.now user.now question.now) result }
{
    match sent(alloc, state, user, question) {
        Ok(shown) => Ok(shown),
        Err(Fail::Refused(cause)) => Err(Halt::Refused(cause)),
        Err(Fail::Memory) => Err(Halt::Memory),
    }
}

/// The machine of the server: the bytes of a reply are made before its step is taken, so that a step that was taken can be told.
///
/// The status is 201 where the call made an object, and else 200; the media type is that of a content, and else application/json;
/// the number is that of the state at which the reply was made.
pub struct ServerMachine;

impl Machine for ServerMachine {
    type State = State;

    type Call = Write;

    type Question = Question;

    type Shown = Shown;

    type Cause = Cause;

    ghost use Rattle.cm_repo.specs.ServerMachine.{shown_step, shown_answer};

    ghost next = { shown_step };

    ghost answer = { shown_answer };

    ghost number = { λ r. r.step };

    fn next(
        alloc: Global,
        state: &State,
        entry: &Entry<Write>,
    ) -> Result<(State, Shown), Halt<Cause>> {
        shown_step(alloc, state, entry)
    }

    fn answer(
        alloc: Global,
        state: &State,
        user: &Text,
        question: &Question,
    ) -> Result<Shown, Halt<Cause>> {
        shown_answer(alloc, state, user, question)
    }

    fn number(state: &State) -> u64 {
        state.step()
    }
}
