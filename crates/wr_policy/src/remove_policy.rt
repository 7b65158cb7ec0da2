//! removePolicy (CMIS 1.1, section 2.2.9.2).
ghost use Rattle.std.specs.Prelude.{◌≡◌, ◌+◌, ◌<◌, ◌^◌, Ok, Some, IfOk};
ghost use Rattle.cm_base.specs.Judged.{Leaves};
ghost use Rattle.cmis_spec.specs.Access.{read_named};
ghost use Rattle.cmis_spec.specs.Well.{IsWellFormed};
ghost use Rattle.cm_see.specs.Addressed.{addressed};
ghost use Rattle.wr_rules.specs.Found.{FindsWith};
ghost use Rattle.wr_policy.specs.Applied.{number_or_root};
ghost use Rattle.wr_policy.specs.RemovePolicy.{cost_remove_policy, judge_removal, refusal_remove_policy, taken_off, after_remove_policy};

use crate::applied::{changed_by, is_applied, without_policy};
use cm_base::access::Level;
use cm_base::cause::Cause;
use cm_base::fail::Fail;
use cm_base::number::{Moment, Oid};
use cm_base::object::Object;
use cm_base::text::Text;
use cm_draft::draft::Draft;
use cm_see::address::addressed;
use cm_see::level::lacks;
use cm_see::read::read_named;
use cm_state::state::State;
use cm_types::definition::BaseType;
use policy_parts::weight::weight_of_remove_policy;
use policy_parts::writes::RemovePolicy;
use std::alloc::{AllocError, Global};
use wr_rules::storage::judge_storage;

// Whether the caller may write in the object, and what he names is a policy.
fn judge_removal(state: &State, user: &Text, x: &Object, policy: &Object) -> Result<(), Cause>
    ensures { result ≡ judge_removal state.now user.now x.now policy.now }
{
    if lacks(state, user, Level::Write, x) {
        return Err(Cause::Denied);
    }
    if !state.is_a(BaseType::Policy, policy) {
        return Err(Cause::WrongKind);
    }
    Ok(())
}

// The object that is addressed and the number of the policy, or the cause of the refusal.
#[tactic(auto, using(cm_types::proofs::Exits::fails_then, cm_types::proofs::Exits::fails_bind))]
fn judge<'a>(state: &'a State, user: &Text, call: &RemovePolicy) -> Result<(&'a Object, Oid), Fail>
    ensures { FindsWith (λ x. x.now) result
        (refusal_remove_policy state.now user.now (cost_remove_policy call.now) call.now)
        (addressed state.now user.now call.now.place)
        (λ _. number_or_root (read_named state.now user.now call.now.policy)) }
{
    judge_storage(state, weight_of_remove_policy(call))?;
    let x = addressed(state, user, &call.place).ok_or(Cause::NotFound)?;
    let policy = read_named(state, user, &call.policy).ok_or(Cause::NotFound)?;
    judge_removal(state, user, x, policy)?;
    Ok((x, policy.id))
}

// The policy off the object, one step further; where it isn't there the step alone.
fn taken_off(
    alloc: Global,
    state: &State,
    policy: Oid,
    object: Oid,
    moment: Moment,
    cost: u64,
) -> Result<Draft, AllocError>
    requires step { state.now.step + 1 < 2 ^ 64 }
    requires cost { state.now.cost + cost < 2 ^ 64 }
    ensures { IfOk result (λ d. d ≡ taken_off state.now moment cost policy object) }
{
    let begun = Draft::of(alloc, state)?;
    if !is_applied(state, policy, object) {
        return Ok(begun.stepped(cost));
    }
    let put = without_policy(alloc, begun, policy, object)?;
    let changed = changed_by(alloc, put, object, moment, cost)?;
    Ok(changed)
}

// The state in which the policy is off the object that the call addresses.
fn with_removal(
    alloc: Global,
    state: &State,
    user: &Text,
    moment: Moment,
    call: &RemovePolicy,
    x: &Object,
    policy: Oid,
) -> Result<State, AllocError>
    requires allowed { refusal_remove_policy state.now user.now (cost_remove_policy call.now) call.now ≡ Ok tt }
    requires found { addressed state.now user.now call.now.place ≡ Some x.now }
    requires policy { policy ≡ number_or_root (read_named state.now user.now call.now.policy) }
    ensures { IfOk result (λ s. s
        ≡ after_remove_policy state.now user.now moment (cost_remove_policy call.now) call.now) }
{
    let _step = state.step();
    let cost = weight_of_remove_policy(call);
    let draft = taken_off(alloc, state, policy, x.id, moment, cost)?;
    Ok(draft.seal())
}

/// Takes a policy off an object; one that isn't applied to it is no fault, and no event tells of it. The cost is the weight of the call.
///
/// The answer is the first cause that refuses the call, or the repository after it.
pub fn remove_policy(
    alloc: Global,
    state: &State,
    user: &Text,
    moment: Moment,
    call: &RemovePolicy,
) -> Result<State, Fail>
    ensures written { Leaves result
        (refusal_remove_policy state.now user.now (cost_remove_policy call.now) call.now)
        (after_remove_policy state.now user.now moment (cost_remove_policy call.now) call.now) }
    ensures well { IfOk result (λ s. IsWellFormed s) }
{
    let _step = state.step();
    let (x, policy) = judge(state, user, call)?;
    let made = with_removal(alloc, state, user, moment, call, x, policy)?;
    let _next_step = made.step();
    Ok(made)
}
