//! updateType (CMIS 1.1, section 2.2.2.7).
ghost use Rattle.std.specs.Prelude.{◌≡◌, Ok, IfOk};
ghost use Rattle.cm_base.specs.Judged.{Leaves, Writes};
ghost use Rattle.cm_types.specs.Changes.{placed_type};
ghost use Rattle.cm_base.specs.declared.number.Moment.{Moment};
ghost use Rattle.cmis_spec.specs.Well.{IsWellFormed};
ghost use Rattle.wr_types.specs.UpdateType.{cost_update_type, refusal_update_type, updated_type, after_update_type, acknowledgement_update_type};

use crate::retyped::{may_not_type, retyped, with_reply};
use cm_base::cause::Cause;
use cm_base::fail::Fail;
use cm_base::number::Moment;
use cm_base::text::Text;
use cm_state::state::State;
use cm_type_list::types::Types;
use std::alloc::{AllocError, Global};
use type_change_parts::weight::weight_of_update_type;
use type_change_parts::writes::UpdateType;
use type_parts::replies::TypeReply;
use wr_rules::storage::judge_storage;

// The types with the changed one, or the cause of the refusal.
#[tactic(auto, using(cm_types::proofs::Exits::fails_then, cm_types::proofs::Exits::fails_bind, crate::proofs::Changing::types_are))]
fn typed(alloc: Global, state: &State, user: &Text, call: &UpdateType) -> Result<Types, Fail>
    ensures { Leaves result (refusal_update_type state.now user.now (cost_update_type call.now) call.now)
        (placed_type (updated_type state.now.types call.now.definition) state.now.types) }
{
    judge_storage(state, weight_of_update_type(call))?;
    if state.type_named(&call.definition.id).is_none() {
        return Err(Fail::Refused(Cause::TypeNotFound));
    }
    if may_not_type(state, user) {
        return Err(Fail::Refused(Cause::Denied));
    }
    let types = state.types().with_change(alloc, &call.definition)?;
    Ok(types)
}

// The state with the changed type.
fn with_changed(
    alloc: Global,
    state: &State,
    user: &Text,
    call: &UpdateType,
    types: Types,
) -> Result<State, AllocError>
    requires allowed { refusal_update_type state.now user.now (cost_update_type call.now) call.now ≡ Ok tt }
    requires made { types ≡ placed_type (updated_type state.now.types call.now.definition) state.now.types }
    ensures { IfOk result (λ s. (m : Moment) → s
        ≡ after_update_type state.now user.now m (cost_update_type call.now) call.now) }
{
    let _step = state.step();
    let _judged = user;
    let made = retyped(alloc, state, types, weight_of_update_type(call))?;
    Ok(made)
}

/// Changes a type: its display name and description, and properties that are new and not required. What the definition does not give
/// stays. The caller is the administrator; no event tells of the change. The cost is the weight of the call.
///
/// The answer is the first cause that refuses the call, or the repository after it and the type with its property definitions.
pub fn update_type(
    alloc: Global,
    state: &State,
    user: &Text,
    moment: Moment,
    call: &UpdateType,
) -> Result<(State, TypeReply), Fail>
    ensures written { Writes result
        (refusal_update_type state.now user.now (cost_update_type call.now) call.now)
        (after_update_type state.now user.now moment (cost_update_type call.now) call.now)
        (acknowledgement_update_type state.now user.now moment (cost_update_type call.now) call.now) }
    ensures well { IfOk result (λ x. IsWellFormed x.0) }
{
    let _untold = moment;
    let types = typed(alloc, state, user, call)?;
    let made = with_changed(alloc, state, user, call, types)?;
    let (next, reply) = with_reply(alloc, made, &call.definition.id, false)?;
    let _next_step = next.step();
    Ok((next, reply))
}
