//! deleteContent (CMIS 1.1, section 2.2.4.20).
ghost use Rattle.std.specs.Prelude.{◌≡◌, ◌+◌, ◌<◌, ◌^◌, Ok, Some, IfOk, is_some, true};
ghost use Rattle.cm_base.specs.Judged.{Writes};
ghost use Rattle.cm_see.specs.Addressed.{addressed};
ghost use Rattle.cm_state.specs.Looks.{content_at};
ghost use Rattle.cmis_spec.specs.Changes.{stepped};
ghost use Rattle.cmis_spec.specs.Well.{IsWellFormed};
ghost use Rattle.wr_content.specs.Document.{FindsOr};
ghost use Rattle.wr_content.specs.DeleteContent.{cost_delete_content, refusal_delete_content, after_delete_content, acknowledgement_delete_content};

use crate::document::{changed_by, cleared, is_needed, judge_document};
use call_parts::changes::DeleteContent;
use call_parts::replies::ObjectReply;
use call_parts::weight::weight_of_delete_content;
use cm_base::cause::Cause;
use cm_base::fail::Fail;
use cm_base::number::Moment;
use cm_base::object::Object;
use cm_base::text::Text;
use cm_draft::draft::Draft;
use cm_see::address::addressed;
use cm_state::state::State;
use std::alloc::{AllocError, Global};
use wr_rules::made::with_changed;
use wr_rules::retention::judge_kept;
use wr_rules::storage::judge_storage;

// The document that is addressed, or the cause of the refusal.
#[tactic(auto, using(cm_types::proofs::Exits::fails_then, cm_types::proofs::Exits::fails_bind))]
fn judge<'a>(
    alloc: Global,
    state: &'a State,
    user: &Text,
    moment: Moment,
    call: &DeleteContent,
) -> Result<&'a Object, Fail>
    ensures { FindsOr (λ x. x.now) result
        (refusal_delete_content state.now user.now moment (cost_delete_content call.now) call.now)
        (addressed state.now user.now call.now.place) }
{
    judge_storage(state, weight_of_delete_content(call))?;
    let x = addressed(state, user, &call.place).ok_or(Cause::NotFound)?;
    judge_document(alloc, state, user, &call.token, x)?;
    if is_needed(state, x) {
        return Err(Fail::Refused(Cause::ContentRequired));
    }
    judge_kept(state, moment, x)?;
    Ok(x)
}

// The state one step further, in which nothing else changed.
fn only_stepped(alloc: Global, state: &State, cost: u64) -> Result<State, AllocError>
    requires step { state.now.step + 1 < 2 ^ 64 }
    requires cost { state.now.cost + cost < 2 ^ 64 }
    requires well { IsWellFormed (stepped state.now cost) }
    ensures { IfOk result (λ s. s ≡ stepped state.now cost) }
{
    let begun = Draft::of(alloc, state)?;
    Ok(begun.stepped(cost).seal())
}

// The state in which the document that the call addresses has no content.
fn without_content(
    alloc: Global,
    state: &State,
    user: &Text,
    moment: Moment,
    call: &DeleteContent,
    x: &Object,
) -> Result<State, AllocError>
    requires allowed { refusal_delete_content state.now user.now moment (cost_delete_content call.now) call.now
        ≡ Ok tt }
    requires found { addressed state.now user.now call.now.place ≡ Some x.now }
    ensures { IfOk result (λ s. s
        ≡ after_delete_content state.now user.now moment (cost_delete_content call.now) call.now) }
{
    let _step = state.step();
    let cost = weight_of_delete_content(call);
    if state.content(x.id).is_none() {
        let same = only_stepped(alloc, state, cost)?;
        return Ok(same);
    }
    let changed = changed_by(alloc, state, user, moment, x)?;
    let made = cleared(alloc, state, changed, cost)?;
    Ok(made)
}

/// Deletes the content of a document. A document without content stays as it is. The cost is the weight of the call.
///
/// The answer is the first cause that refuses the call, or the repository after it and the document as the caller sees it there.
pub fn delete_content(
    alloc: Global,
    state: &State,
    user: &Text,
    moment: Moment,
    call: &DeleteContent,
) -> Result<(State, ObjectReply), Fail>
    ensures written { Writes result
        (refusal_delete_content state.now user.now moment (cost_delete_content call.now) call.now)
        (after_delete_content state.now user.now moment (cost_delete_content call.now) call.now)
        (acknowledgement_delete_content state.now user.now moment
        (cost_delete_content call.now) call.now) }
    ensures well { IfOk result (λ x. IsWellFormed x.0) }
{
    let _step = state.step();
    let x = judge(alloc, state, user, moment, call)?;
    let made = without_content(alloc, state, user, moment, call, x)?;
    let (next, reply) = with_changed(alloc, made, user, call.succinct, x.id)?;
    let _next_step = next.step();
    Ok((next, reply))
}
