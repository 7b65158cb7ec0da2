//! deleteObject (CMIS 1.1, section 2.2.4.16).
ghost use Rattle.std.specs.Prelude.{◌≡◌, [], ◌∷◌, IfOk, unwrap_or, option_map};
ghost use Rattle.std.specs.List.{filter_map};
ghost use Rattle.cm_base.specs.Judged.{Leaves};
ghost use Rattle.cmis_spec.specs.Repository.{object_at, series_of};
ghost use Rattle.cmis_spec.specs.Retention.{judge_kept};
ghost use Rattle.cmis_spec.specs.Well.{IsWellFormed, members};
ghost use Rattle.cm_see.specs.Addressed.{addressed};
ghost use Rattle.wr_rules.specs.Found.{FindsWith};
ghost use Rattle.cm_state.specs.Looks.{is_policy_used};
ghost use Rattle.wr_remove.specs.Delete.{cost_delete, is_checked_out_version, is_filled_at, is_filled, judge_removal, refusal_delete, doomed, after_delete};

use crate::members::{members, only};
use crate::without::without;
use call_parts::versions::Delete;
use call_parts::weight::weight_of_delete;
use cm_base::access::Level;
use cm_base::cause::Cause;
use cm_base::fail::Fail;
use cm_base::number::{Moment, Oid, Oids};
use cm_base::object::Object;
use cm_base::text::Text;
use cm_see::address::addressed;
use cm_see::level::lacks;
use cm_state::open::ROOT;
use cm_state::state::State;
use cm_types::definition::BaseType;
use std::alloc::{AllocError, Global};
use wr_rules::retention::judge_all_kept;
use wr_rules::storage::judge_storage;
use wr_rules::versions::{is_checked_out, is_working_copy};

// Whether the series of the document is checked out, and the document is not its working copy.
fn is_checked_out_version(state: &State, x: &Object) -> bool
    ensures { result ≡ is_checked_out_version state.now x.now }
{
    is_checked_out(state, x) && !is_working_copy(state, x)
}

/// Whether something is filed in the folder of this number. It takes no memory, and does not depend on how much is filed there.
pub fn is_filled_at(state: &State, n: Oid) -> bool
    ensures { result ≡ is_filled_at state.now n }
{
    match state.parts().entries(n) {
        Some(entries) => entries.len() > 0,
        None => false,
    }
}

// Whether something is filed in the folder.
fn is_filled(state: &State, x: &Object) -> bool
    ensures { result ≡ is_filled state.now x.now }
{
    state.is_a(BaseType::Folder, x) && is_filled_at(state, x.id)
}

// Whether the policy is applied to an object.
fn is_applied(state: &State, x: &Object) -> bool
    ensures { result ≡ is_policy_used state.now x.now.id }
{
    state.is_policy_used(x.id)
}

// Whether the object may go.
fn judge_removal(state: &State, x: &Object) -> Result<(), Cause>
    ensures { result ≡ judge_removal state.now x.now }
{
    if x.id == ROOT {
        return Err(Cause::RootFixed);
    }
    if is_checked_out_version(state, x) {
        return Err(Cause::CheckedOut);
    }
    if is_filled(state, x) {
        return Err(Cause::NotEmpty);
    }
    if is_applied(state, x) {
        return Err(Cause::PolicyInUse);
    }
    Ok(())
}

// The documents of the series of x, or x alone where it is in none.
fn series_members(alloc: Global, state: &State, x: &Object) -> Result<Oids, AllocError>
    ensures { IfOk result (λ all. all ≡ unwrap_or (option_map members (series_of state.now x.now)) (x.now.id ∷ [])) }
{
    match state.series_of(x) {
        Some(series) => members(alloc, series),
        None => only(alloc, x.id),
    }
}

// What the call deletes.
fn doomed(alloc: Global, state: &State, call: &Delete, x: &Object) -> Result<Oids, AllocError>
    ensures { IfOk result (λ all. all ≡ doomed state.now call.now x.now) }
{
    if call.all_versions && !is_working_copy(state, x) {
        series_members(alloc, state, x)
    } else {
        only(alloc, x.id)
    }
}

// What the call deletes, or the cause that keeps a document of it.
fn judge_doomed(
    alloc: Global,
    state: &State,
    moment: Moment,
    call: &Delete,
    x: &Object,
) -> Result<Oids, Fail>
    ensures { Leaves result
        (judge_kept state.now moment (filter_map (object_at state.now) (doomed state.now call.now x.now)))
        (doomed state.now call.now x.now) }
{
    let numbers = doomed(alloc, state, call, x)?;
    judge_all_kept(state, moment, numbers.as_slice())?;
    Ok(numbers)
}

// The object that is addressed and what the call deletes, or the cause of the refusal.
#[tactic(auto, using(cm_types::proofs::Exits::fails_then, cm_types::proofs::Exits::fails_bind))]
fn judge<'a>(
    alloc: Global,
    state: &'a State,
    user: &Text,
    moment: Moment,
    cost: u64,
    call: &Delete,
) -> Result<(&'a Object, Oids), Fail>
    ensures { FindsWith (λ x. x.now) result
        (refusal_delete state.now user.now moment cost call.now)
        (addressed state.now user.now call.now.place)
        (doomed state.now call.now) }
{
    judge_storage(state, cost)?;
    let x = addressed(state, user, &call.place).ok_or(Cause::NotFound)?;
    if lacks(state, user, Level::All, x) {
        return Err(Fail::Refused(Cause::Denied));
    }
    judge_removal(state, x)?;
    let numbers = judge_doomed(alloc, state, moment, call, x)?;
    Ok((x, numbers))
}

// The state without them, at this cost, or the first cause that refuses the call.
fn removed(
    alloc: Global,
    state: &State,
    user: &Text,
    moment: Moment,
    cost: u64,
    call: &Delete,
) -> Result<State, Fail>
    ensures { Leaves result
        (refusal_delete state.now user.now moment cost call.now)
        (after_delete state.now user.now moment cost call.now) }
{
    let _well = state.step();
    let (x, numbers) = judge(alloc, state, user, moment, cost, call)?;
    let made = without(alloc, state, moment, cost, numbers.as_slice())?;
    Ok(made)
}

/// Deletes an object: a document with its whole series where the call says so, or anything else alone. No document goes that is under a
/// hold, or under retention at the moment of the call (CMIS 1.1, section 2.1.16). The cost is the weight of the call.
///
/// The answer is the first cause that refuses the call, or the repository without what is deleted, and without the relationships that end there.
pub fn delete(
    alloc: Global,
    state: &State,
    user: &Text,
    moment: Moment,
    call: &Delete,
) -> Result<State, Fail>
    ensures written { Leaves result
        (refusal_delete state.now user.now moment (cost_delete call.now) call.now)
        (after_delete state.now user.now moment (cost_delete call.now) call.now) }
    ensures well { IfOk result (λ s. IsWellFormed s) }
{
    let cost = weight_of_delete(call);
    let made = removed(alloc, state, user, moment, cost, call)?;
    let _well = made.step();
    Ok(made)
}
