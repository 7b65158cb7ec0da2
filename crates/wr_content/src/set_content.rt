//! setContent (CMIS 1.1, section 2.2.4.18).
ghost use Rattle.std.specs.Prelude.{◌≡◌, ◌+◌, ◌<◌, ◌^◌, Ok, Some, IfOk};
ghost use Rattle.cm_base.specs.Judged.{Writes};
ghost use Rattle.cm_see.specs.Addressed.{addressed};
ghost use Rattle.cmis_spec.specs.Well.{IsWellFormed};
ghost use Rattle.wr_content.specs.Document.{FindsOr};
ghost use Rattle.wr_content.specs.SetContent.{cost_set_content, judge_stream, refusal_set_content, content_set, after_set_content, acknowledgement_set_content};

use crate::document::{changed_by, filled, is_barred, judge_document};
use call_parts::changes::SetContent;
use call_parts::replies::ObjectReply;
use call_parts::weight::weight_of_set_content;
use cm_base::cause::Cause;
use cm_base::content::Content;
use cm_base::fail::Fail;
use cm_base::number::Moment;
use cm_base::object::Object;
use cm_base::text::Text;
use cm_see::address::addressed;
use cm_state::state::State;
use std::alloc::{AllocError, Global};
use wr_rules::content::{content_of_stream, is_too_long};
use wr_rules::copied::name_of;
use wr_rules::made::with_changed;
use wr_rules::retention::judge_kept;
use wr_rules::storage::judge_storage;

// Whether the document may have the stream that is given.
fn judge_stream(state: &State, call: &SetContent, x: &Object) -> Result<(), Cause>
    ensures { result ≡ judge_stream state.now call.now x.now }
{
    if is_barred(state, x) {
        return Err(Cause::StreamNot);
    }
    if !call.overwrite && state.content(x.id).is_some() {
        return Err(Cause::ContentExists);
    }
    if is_too_long(&call.stream) {
        return Err(Cause::StreamLong);
    }
    Ok(())
}

// The document that is addressed, or the cause of the refusal.
#[tactic(auto, using(cm_types::proofs::Exits::fails_then, cm_types::proofs::Exits::fails_bind))]
fn judge<'a>(
    alloc: Global,
    state: &'a State,
    user: &Text,
    moment: Moment,
    call: &SetContent,
) -> Result<&'a Object, Fail>
    ensures { FindsOr (λ x. x.now) result
        (refusal_set_content state.now user.now moment (cost_set_content call.now) call.now)
        (addressed state.now user.now call.now.place) }
{
    judge_storage(state, weight_of_set_content(call))?;
    let x = addressed(state, user, &call.place).ok_or(Cause::NotFound)?;
    judge_document(alloc, state, user, &call.token, x)?;
    judge_stream(state, call, x)?;
    judge_kept(state, moment, x)?;
    Ok(x)
}

// The stream that is given, as of the next step.
fn content_set(
    alloc: Global,
    state: &State,
    call: &SetContent,
    x: &Object,
) -> Result<Content, AllocError>
    requires room { state.now.step + 1 < 2 ^ 64 }
    ensures { IfOk result (λ c. c ≡ content_set state.now call.now x.now) }
{
    let name = Text::from_str(alloc, name_of(state, x))?;
    content_of_stream(alloc, x.id, &name, state.step() + 1, &call.stream)
}

// The state in which the document that the call addresses has the stream.
fn with_stream(
    alloc: Global,
    state: &State,
    user: &Text,
    moment: Moment,
    call: &SetContent,
    x: &Object,
) -> Result<State, AllocError>
    requires allowed { refusal_set_content state.now user.now moment (cost_set_content call.now) call.now ≡ Ok tt }
    requires found { addressed state.now user.now call.now.place ≡ Some x.now }
    ensures { IfOk result (λ s. s
        ≡ after_set_content state.now user.now moment (cost_set_content call.now) call.now) }
{
    let _step = state.step();
    let changed = changed_by(alloc, state, user, moment, x)?;
    let content = content_set(alloc, state, call, x)?;
    let made = filled(alloc, state, changed, content, weight_of_set_content(call))?;
    Ok(made)
}

/// Sets the content of a document. The cost is the weight of the call.
///
/// The answer is the first cause that refuses the call, or the repository after it and the document as the caller sees it there.
pub fn set_content(
    alloc: Global,
    state: &State,
    user: &Text,
    moment: Moment,
    call: &SetContent,
) -> Result<(State, ObjectReply), Fail>
    ensures written { Writes result
        (refusal_set_content state.now user.now moment (cost_set_content call.now) call.now)
        (after_set_content state.now user.now moment (cost_set_content call.now) call.now)
        (acknowledgement_set_content state.now user.now moment
        (cost_set_content call.now) call.now) }
    ensures well { IfOk result (λ x. IsWellFormed x.0) }
{
    let _step = state.step();
    let x = judge(alloc, state, user, moment, call)?;
    let made = with_stream(alloc, state, user, moment, call, x)?;
    let (next, reply) = with_changed(alloc, made, user, call.succinct, x.id)?;
    let _next_step = next.step();
    Ok((next, reply))
}
