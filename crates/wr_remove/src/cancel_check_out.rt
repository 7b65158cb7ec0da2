//! cancelCheckOut (CMIS 1.1, section 2.2.7.2).
ghost use Rattle.std.specs.Prelude.{◌≡◌, IfOk};
ghost use Rattle.cm_base.specs.Judged.{Leaves};
ghost use Rattle.cmis_spec.specs.Well.{IsWellFormed};
ghost use Rattle.cm_see.specs.Addressed.{addressed};
ghost use Rattle.wr_rules.specs.Found.{Finds};
ghost use Rattle.wr_remove.specs.CancelCheckOut.{cost_cancel, refusal_cancel, after_cancel};

use crate::members::only;
use crate::without::without;
use call_parts::versions::CancelCheckOut;
use call_parts::weight::weight_of_cancel;
use cm_base::access::Level;
use cm_base::cause::Cause;
use cm_base::fail::Fail;
use cm_base::number::Moment;
use cm_base::object::Object;
use cm_base::text::Text;
use cm_see::address::addressed;
use cm_see::level::lacks;
use cm_state::state::State;
use cm_types::definition::BaseType;
use std::alloc::Global;
use wr_rules::storage::judge_storage;
use wr_rules::versions::is_working_copy;

// The working copy that is addressed, or the cause of the refusal.
#[tactic(auto, using(cm_types::proofs::Exits::fails_then, cm_types::proofs::Exits::fails_bind))]
fn judge<'a>(
    state: &'a State,
    user: &Text,
    cost: u64,
    call: &CancelCheckOut,
) -> Result<&'a Object, Cause>
    ensures { Finds (λ x. x.now) result
        (refusal_cancel state.now user.now cost call.now)
        (addressed state.now user.now call.now.place) }
{
    judge_storage(state, cost)?;
    let x = match addressed(state, user, &call.place) {
        Some(x) => x,
        None => return Err(Cause::NotFound),
    };
    if lacks(state, user, Level::Write, x) {
        return Err(Cause::Denied);
    }
    if !state.is_a(BaseType::Document, x) {
        return Err(Cause::WrongKind);
    }
    if !is_working_copy(state, x) {
        return Err(Cause::NotWorking);
    }
    Ok(x)
}

// The state without the working copy, at this cost, or the first cause that refuses the call.
fn cancelled(
    alloc: Global,
    state: &State,
    user: &Text,
    moment: Moment,
    cost: u64,
    call: &CancelCheckOut,
) -> Result<State, Fail>
    ensures { Leaves result
        (refusal_cancel state.now user.now cost call.now)
        (after_cancel state.now user.now moment cost call.now) }
{
    let _well = state.step();
    let x = judge(state, user, cost, call)?;
    let numbers = only(alloc, x.id)?;
    let made = without(alloc, state, moment, cost, numbers.as_slice())?;
    Ok(made)
}

/// Takes back a check-out. The cost is the weight of the call.
///
/// The answer is the first cause that refuses the call, or the repository without the working copy, and without its series if it has no version.
pub fn cancel_check_out(
    alloc: Global,
    state: &State,
    user: &Text,
    moment: Moment,
    call: &CancelCheckOut,
) -> Result<State, Fail>
    ensures written { Leaves result
        (refusal_cancel state.now user.now (cost_cancel call.now) call.now)
        (after_cancel state.now user.now moment (cost_cancel call.now) call.now) }
    ensures well { IfOk result (λ s. IsWellFormed s) }
{
    let cost = weight_of_cancel(call);
    let made = cancelled(alloc, state, user, moment, cost, call)?;
    let _well = made.step();
    Ok(made)
}
