//! createPolicy (CMIS 1.1, section 2.2.4.5).
ghost use Rattle.std.specs.Prelude.{◌≡◌, [], None, IfOk};
ghost use Rattle.cm_base.specs.Judged.{Leaves, Writes};
ghost use Rattle.cm_types.specs.declared.given.PropertyCall.TheVariants as calls;
ghost use Rattle.cmis_spec.specs.Values.{values_kept};
ghost use Rattle.cmis_spec.specs.Well.{IsWellFormed};
ghost use Rattle.wr_rules.specs.Wanted.{wanted_in};
ghost use Rattle.wr_create.specs.CreatePolicy.{cost_create_policy, judge_policy, refusal_of_policy, refusal_create_policy, after_create_policy, acknowledgement_create_policy};

use crate::making::{made_with_reply, with_request};
use crate::rules::{
    cost_of_making, is_anonymous, is_uncontrollable, judge_addressed, judge_request, judge_type,
};
use call_parts::replies::ObjectReply;
use cm_base::cause::Cause;
use cm_base::fail::Fail;
use cm_base::number::Moment;
use cm_base::text::Text;
use cm_base::value::Values;
use cm_state::state::State;
use cm_types::definition::{BaseType, TypeDef};
use create_parts::weight::weight_of_create_policy;
use create_parts::writes::CreatePolicy;
use std::alloc::Global;
use wr_object::asked::wanted_of;
use wr_object::making::new_object;
use wr_rules::kinds::judge_types;
use wr_rules::policies::{has_other_policy, judge_read};
use wr_rules::storage::judge_storage;
use wr_rules::wanted::Wanted;

// The values of the policy, or the first of the causes that come once its type is found.
#[tactic(auto, using(cm_types::proofs::Exits::fails_then))]
fn judge_policy(
    alloc: Global,
    state: &State,
    user: &Text,
    call: &CreatePolicy,
    wanted: &Wanted<'_>,
    kind: &TypeDef,
) -> Result<Values, Fail>
    ensures { Leaves result
        (judge_policy state.now user.now call.now wanted.now kind.now)
        (values_kept calls.Create wanted.now.defs [] call.now.object.properties) }
{
    if is_anonymous(user) {
        return Err(Fail::Refused(Cause::Denied));
    }
    if has_other_policy(state, user, call.object.policies.as_slice()) {
        return Err(Fail::Refused(Cause::WrongKind));
    }
    if call.place.is_some() {
        return Err(Fail::Refused(Cause::NotFileable));
    }
    judge_type(alloc, state.types(), BaseType::Policy, wanted, kind)?;
    if is_uncontrollable(kind, &call.object) {
        return Err(Fail::Refused(Cause::NotControllable));
    }
    let values = judge_request(alloc, wanted, &call.object, &call.object.properties)?;
    Ok(values)
}

// The values of the policy, or the cause of the refusal.
#[tactic(auto, using(cm_types::proofs::Exits::fails_then, cm_types::proofs::Exits::fails_bind))]
fn judge_wanted(
    alloc: Global,
    state: &State,
    user: &Text,
    cost: u64,
    call: &CreatePolicy,
    wanted: &Wanted<'_>,
) -> Result<Values, Fail>
    ensures { Leaves result
        (refusal_of_policy state.now user.now cost call.now wanted.now)
        (values_kept calls.Create wanted.now.defs [] call.now.object.properties) }
{
    judge_storage(state, cost)?;
    judge_addressed(state, user, &call.place)?;
    judge_read(state, user, call.object.policies.as_slice())?;
    let kind = state.types().find(&wanted.kind).ok_or(Cause::TypeNotFound)?;
    judge_types(state.types(), wanted.secondary.as_slice())?;
    let values = judge_policy(alloc, state, user, call, wanted, kind)?;
    Ok(values)
}

fn cost_of(state: &State, call: &CreatePolicy, wanted: &Wanted<'_>) -> u64
    requires wanted { wanted.now ≡ wanted_in state.now.types call.now.object.properties }
    ensures { result ≡ cost_create_policy state.now call.now }
{
    cost_of_making(
        state,
        weight_of_create_policy(call),
        wanted,
        &call.object.properties,
    )
}

/// Makes a policy, which stands in no folder. The cost is the weight of the call and the default values that the policy takes.
///
/// The answer is the first cause that refuses the call, or the repository after it and the new policy as the caller sees it there.
pub fn create_policy(
    alloc: Global,
    state: &State,
    user: &Text,
    moment: Moment,
    call: &CreatePolicy,
) -> Result<(State, ObjectReply), Fail>
    ensures written { Writes result
        (refusal_create_policy state.now user.now (cost_create_policy state.now call.now) call.now)
        (after_create_policy state.now user.now moment (cost_create_policy state.now call.now) call.now)
        (acknowledgement_create_policy state.now user.now moment (cost_create_policy state.now call.now) call.now) }
    ensures well { IfOk result (λ x. IsWellFormed x.0) }
{
    let _step = state.step();
    let wanted = wanted_of(alloc, state, &call.object.properties)?;
    let cost = cost_of(state, call, &wanted);
    let values = judge_wanted(alloc, state, user, cost, call, &wanted)?;
    let object = new_object(alloc, state, user, moment, wanted, values)?;
    let new = with_request(alloc, state, user, object, &call.object, None)?;
    let (next, reply) = made_with_reply(alloc, state, user, new, cost, call.succinct)?;
    let _next_step = next.step();
    Ok((next, reply))
}
