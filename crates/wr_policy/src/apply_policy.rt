//! applyPolicy (CMIS 1.1, section 2.2.9.1).
ghost use Rattle.std.specs.Prelude.{◌≡◌, ◌+◌, ◌<◌, ◌^◌, Ok, Some, IfOk};
ghost use Rattle.cm_base.specs.Judged.{Writes};
ghost use Rattle.cmis_spec.specs.Access.{read_named};
ghost use Rattle.cmis_spec.specs.Well.{IsWellFormed};
ghost use Rattle.cm_see.specs.Addressed.{addressed};
ghost use Rattle.wr_rules.specs.Found.{FindsWith};
ghost use Rattle.wr_policy.specs.Applied.{number_or_root};
ghost use Rattle.wr_policy.specs.ApplyPolicy.{cost_apply_policy, takes_no_policy, judge_application, refusal_apply_policy, applied_to, after_apply_policy, acknowledgement_apply_policy};

use crate::applied::{changed_by, is_applied};
use call_parts::replies::ObjectReply;
use cm_base::access::Level;
use cm_base::cause::Cause;
use cm_base::fail::Fail;
use cm_base::number::{Moment, Oid};
use cm_base::object::Object;
use cm_base::text::Text;
use cm_draft::draft::Draft;
use cm_see::address::addressed;
use cm_see::level::lacks;
use cm_see::read::read_named;
use cm_state::state::State;
use cm_types::definition::BaseType;
use policy_parts::weight::weight_of_apply_policy;
use policy_parts::writes::ApplyPolicy;
use std::alloc::{AllocError, Global};
use wr_rules::made::with_changed;
use wr_rules::storage::judge_storage;

// Whether policies are not applied to objects of its type.
fn takes_no_policy(state: &State, x: &Object) -> bool
    ensures { result ≡ takes_no_policy state.now x.now }
{
    match state.type_named(&x.kind) {
        Some(kind) => !kind.controllable_policy,
        None => false,
    }
}

// Whether the caller may write in the object, and the policy is one that its type takes.
fn judge_application(state: &State, user: &Text, x: &Object, policy: &Object) -> Result<(), Cause>
    ensures { result ≡ judge_application state.now user.now x.now policy.now }
{
    if lacks(state, user, Level::Write, x) {
        return Err(Cause::Denied);
    }
    if !state.is_a(BaseType::Policy, policy) {
        return Err(Cause::WrongKind);
    }
    if takes_no_policy(state, x) {
        return Err(Cause::NotControllable);
    }
    Ok(())
}

// The object that is addressed and the number of the policy, or the cause of the refusal.
#[tactic(auto, using(cm_types::proofs::Exits::fails_then, cm_types::proofs::Exits::fails_bind))]
fn judge<'a>(state: &'a State, user: &Text, call: &ApplyPolicy) -> Result<(&'a Object, Oid), Fail>
    ensures { FindsWith (λ x. x.now) result
        (refusal_apply_policy state.now user.now (cost_apply_policy call.now) call.now)
        (addressed state.now user.now call.now.place)
        (λ _. number_or_root (read_named state.now user.now call.now.policy)) }
{
    judge_storage(state, weight_of_apply_policy(call))?;
    let x = addressed(state, user, &call.place).ok_or(Cause::NotFound)?;
    let policy = read_named(state, user, &call.policy).ok_or(Cause::NotFound)?;
    judge_application(state, user, x, policy)?;
    Ok((x, policy.id))
}

// The policy on the object, one step further; where it is there already the step alone.
fn applied_to(
    alloc: Global,
    state: &State,
    policy: Oid,
    object: Oid,
    moment: Moment,
    cost: u64,
) -> Result<Draft, AllocError>
    requires step { state.now.step + 1 < 2 ^ 64 }
    requires cost { state.now.cost + cost < 2 ^ 64 }
    ensures { IfOk result (λ d. d ≡ applied_to state.now moment cost policy object) }
{
    let begun = Draft::of(alloc, state)?;
    if is_applied(state, policy, object) {
        return Ok(begun.stepped(cost));
    }
    let put = begun.with_policies(alloc, object, &[policy])?;
    let changed = changed_by(alloc, put, object, moment, cost)?;
    Ok(changed)
}

// The state in which the policy is on the object that the call addresses.
fn with_application(
    alloc: Global,
    state: &State,
    user: &Text,
    moment: Moment,
    call: &ApplyPolicy,
    x: &Object,
    policy: Oid,
) -> Result<State, AllocError>
    requires allowed { refusal_apply_policy state.now user.now (cost_apply_policy call.now) call.now ≡ Ok tt }
    requires found { addressed state.now user.now call.now.place ≡ Some x.now }
    requires policy { policy ≡ number_or_root (read_named state.now user.now call.now.policy) }
    ensures { IfOk result (λ s. s
        ≡ after_apply_policy state.now user.now moment (cost_apply_policy call.now) call.now) }
{
    let _step = state.step();
    let cost = weight_of_apply_policy(call);
    let draft = applied_to(alloc, state, policy, x.id, moment, cost)?;
    Ok(draft.seal())
}

/// Applies a policy to an object, also to an older version or to a document of a series that is checked out; one that is applied
/// already stays, and no event tells of it. The cost is the weight of the call.
///
/// The answer is the first cause that refuses the call, or the repository after it and the object as the caller sees it there.
pub fn apply_policy(
    alloc: Global,
    state: &State,
    user: &Text,
    moment: Moment,
    call: &ApplyPolicy,
) -> Result<(State, ObjectReply), Fail>
    ensures written { Writes result
        (refusal_apply_policy state.now user.now (cost_apply_policy call.now) call.now)
        (after_apply_policy state.now user.now moment (cost_apply_policy call.now) call.now)
        (acknowledgement_apply_policy state.now user.now moment (cost_apply_policy call.now) call.now) }
    ensures well { IfOk result (λ x. IsWellFormed x.0) }
{
    let _step = state.step();
    let (x, policy) = judge(state, user, call)?;
    let made = with_application(alloc, state, user, moment, call, x, policy)?;
    let (next, reply) = with_changed(alloc, made, user, call.succinct, x.id)?;
    let _next_step = next.step();
    Ok((next, reply))
}
