//! checkOut (CMIS 1.1, section 2.2.7.1).
ghost use Rattle.std.specs.Prelude.{◌≡◌, ◌+◌, ◌<◌, ◌^◌, not, Ok, Some, IfOk, filter};
ghost use Rattle.cm_base.specs.Judged.{Leaves, Writes};
ghost use Rattle.cm_base.specs.declared.value.Slot.{Slot};
ghost use Rattle.cmis_spec.specs.Repository.{series_of};
ghost use Rattle.cmis_spec.specs.Documents.{is_comment, without_comment};
ghost use Rattle.cmis_spec.specs.Well.{IsWellFormed};
ghost use Rattle.call_parts.specs.Weight.{bounded};
ghost use Rattle.cm_see.specs.Addressed.{addressed};
ghost use Rattle.cm_see.specs.Shown.{is_latest_version};
ghost use Rattle.wr_rules.specs.Found.{Finds};
ghost use Rattle.wr_version.specs.CheckOut.{copies_cost, cost_check_out, judge_latest, refusal_check_out, new_copy, new_content, after_check_out, acknowledgement_check_out};

use crate::copying::copied_in;
use call_parts::replies::ObjectReply;
use call_parts::versions::CheckOut;
use call_parts::weight::weight_of_check_out;
use cm_base::access::Level;
use cm_base::cause::Cause;
use cm_base::content::Content;
use cm_base::copies::Copies;
use cm_base::fail::Fail;
use cm_base::items::Items;
use cm_base::number::{Moment, Oid};
use cm_base::object::Object;
use cm_base::series::Series;
use cm_base::text::Text;
use cm_base::value::{Slot, Values};
use cm_see::address::addressed;
use cm_see::level::lacks;
use cm_series::working;
use cm_state::look::is_latest;
use cm_state::state::State;
use cm_types::definition::BaseType;
use std::alloc::{AllocError, Global};
use wr_rules::copied::{is_comment, name_of, with_copied};
use wr_rules::made::with_reply;
use wr_rules::storage::judge_storage;
use wr_rules::versions::{is_checked_out, is_versionable};

fn is_latest_version(state: &State, x: &Object) -> bool
    ensures { result ≡ is_latest_version state.now x.now }
{
    match state.series_of(x) {
        Some(series) => is_latest(series, x.id),
        None => false,
    }
}

// The object is the latest version of a series that may be checked out.
fn judge_latest(state: &State, x: &Object) -> Result<(), Cause>
    ensures { result ≡ judge_latest state.now x.now }
{
    if !state.is_a(BaseType::Document, x) {
        return Err(Cause::WrongKind);
    }
    if !is_versionable(state, x) {
        return Err(Cause::NotVersionable);
    }
    if is_checked_out(state, x) {
        return Err(Cause::CheckedOut);
    }
    if !is_latest_version(state, x) {
        return Err(Cause::NotLatest);
    }
    Ok(())
}

// The document that is addressed, or the cause of the refusal.
#[tactic(auto, using(cm_types::proofs::Exits::fails_then, cm_types::proofs::Exits::fails_bind))]
fn judge<'a>(state: &'a State, user: &Text, cost: u64, call: &CheckOut) -> Result<&'a Object, Cause>
    ensures { Finds (λ x. x.now) result
        (refusal_check_out state.now user.now cost call.now)
        (addressed state.now user.now call.now.place) }
{
    judge_storage(state, cost)?;
    let x = match addressed(state, user, &call.place) {
        Some(x) => x,
        None => return Err(Cause::NotFound),
    };
    if lacks(state, user, Level::Write, x) {
        return Err(Cause::Denied);
    }
    judge_latest(state, x)?;
    Ok(x)
}

/// The values but the comment of a check-in.
pub(crate) fn only_others(slots: Vec<Slot>) -> Vec<Slot>
    ensures { result.items ≡ filter (λ s. not (is_comment s)) slots.items }
{
    let mut slots = slots;
    slots.retain(|s| !is_comment(s));
    slots
}

// The values that a copy takes over.
fn without_comment(alloc: Global, values: &Values) -> Result<Values, AllocError>
    ensures { IfOk result (λ v. v ≡ without_comment values.now) }
{
    let all = values.copied(alloc)?;
    Ok(Items::from_vec(only_others(all.into_vec())))
}

// The working copy of a document.
fn new_copy(
    alloc: Global,
    state: &State,
    user: &Text,
    moment: Moment,
    x: &Object,
) -> Result<Object, AllocError>
    requires room { state.now.step + 1 < 2 ^ 64 }
    ensures { IfOk result (λ c. c ≡ new_copy state.now user.now moment x.now) }
{
    let name = Text::from_str(alloc, name_of(state, x))?;
    let values = without_comment(alloc, &x.values)?;
    Ok(Object {
        id: Oid(state.next_number()),
        kind: x.kind.copied(alloc)?,
        name: Some(name),
        secondary: x.secondary.copied(alloc)?,
        values,
        created_by: user.copied(alloc)?,
        created_at: moment,
        modified_by: user.copied(alloc)?,
        modified_at: moment,
        token: state.step() + 1,
        series: x.series,
    })
}

// The content of the working copy, if the document has any. Its bytes are shared.
fn new_content(alloc: Global, state: &State, x: &Object) -> Result<Option<Content>, AllocError>
    requires room { state.now.step + 1 < 2 ^ 64 }
    ensures { IfOk result (λ c. c ≡ new_content state.now x.now) }
{
    match state.content(x.id) {
        Some(content) => {
            let stream = content.stream.copied(alloc)?;
            Ok(Some(Content {
                of: Oid(state.next_number()),
                stream,
                step: state.step() + 1,
            }))
        }
        None => Ok(None),
    }
}

// The state with the working copy of the document that the call addresses, which is in this series.
fn with_copy(
    alloc: Global,
    state: &State,
    user: &Text,
    moment: Moment,
    cost: u64,
    call: &CheckOut,
    x: &Object,
    series: &Series,
) -> Result<State, AllocError>
    requires allowed { refusal_check_out state.now user.now cost call.now ≡ Ok tt }
    requires found { addressed state.now user.now call.now.place ≡ Some x.now }
    requires series { series_of state.now x.now ≡ Some series.now }
    ensures { IfOk result (λ s. s ≡ after_check_out state.now user.now moment cost call.now) }
{
    let _step = state.step();
    let copy = new_copy(alloc, state, user, moment, x)?;
    let out = working::check_out(alloc, series, copy.id, user)?;
    let content = new_content(alloc, state, x)?;
    let draft = copied_in(alloc, state, copy, out, content, cost, moment)?;
    Ok(draft.seal())
}

// The state with the working copy, at this cost, or the first cause that refuses the call.
fn copied_out(
    alloc: Global,
    state: &State,
    user: &Text,
    moment: Moment,
    cost: u64,
    call: &CheckOut,
) -> Result<State, Fail>
    ensures { Leaves result
        (refusal_check_out state.now user.now cost call.now)
        (after_check_out state.now user.now moment cost call.now) }
{
    let _now = state.step();
    let x = judge(state, user, cost, call)?;
    let series = state.series_of(x).unwrap();
    let made = with_copy(alloc, state, user, moment, cost, call, x, series)?;
    Ok(made)
}

// The scalars of what is copied, if it is a document.
fn with_copies(so_far: u64, state: &State, x: &Object) -> u64
    ensures { result ≡ bounded (so_far + copies_cost state.now x.now) }
{
    if state.is_a(BaseType::Document, x) {
        with_copied(so_far, state, x)
    } else {
        so_far
    }
}

fn cost_of(state: &State, user: &Text, call: &CheckOut) -> u64
    ensures { result ≡ cost_check_out state.now user.now call.now }
{
    let weight = weight_of_check_out(call);
    match addressed(state, user, &call.place) {
        Some(x) => with_copies(weight, state, x),
        None => weight,
    }
}

/// Checks a document out. The cost is the weight of the call and the scalars that the working copy takes over.
///
/// The answer is the first cause that refuses the call, or the repository after it and the working copy as the caller sees it there.
pub fn check_out(
    alloc: Global,
    state: &State,
    user: &Text,
    moment: Moment,
    call: &CheckOut,
) -> Result<(State, ObjectReply), Fail>
    ensures written { Writes result
        (refusal_check_out state.now user.now (cost_check_out state.now user.now call.now) call.now)
        (after_check_out state.now user.now moment (cost_check_out state.now user.now call.now) call.now)
        (acknowledgement_check_out state.now user.now moment (cost_check_out state.now user.now call.now) call.now) }
    ensures well { IfOk result (λ x. IsWellFormed x.0) }
{
    let _step = state.step();
    let cost = cost_of(state, user, call);
    let made = copied_out(alloc, state, user, moment, cost, call)?;
    let number = Oid(state.next_number());
    let (next, reply) = with_reply(alloc, made, user, call.succinct, number)?;
    let _next_step = next.step();
    Ok((next, reply))
}
