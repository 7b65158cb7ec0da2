//! deleteType (CMIS 1.1, section 2.2.2.8).
ghost use Rattle.std.specs.Prelude.{◌≡◌, Ok, IfOk};
ghost use Rattle.cm_base.specs.Judged.{Leaves};
ghost use Rattle.cm_base.specs.declared.number.Moment.{Moment};
ghost use Rattle.cm_types.specs.Changes.{without_type};
ghost use Rattle.cmis_spec.specs.Well.{IsWellFormed};
ghost use Rattle.wr_types.specs.DeleteType.{cost_delete_type, refusal_delete_type, after_delete_type};

use crate::retyped::{may_not_type, retyped};
use crate::used::is_used;
use cm_base::cause::Cause;
use cm_base::fail::Fail;
use cm_base::number::Moment;
use cm_base::text::Text;
use cm_state::state::State;
use cm_type_list::types::Types;
use std::alloc::{AllocError, Global};
use type_change_parts::weight::weight_of_delete_type;
use type_change_parts::writes::DeleteType;
use wr_rules::storage::judge_storage;

// The types without the one that is removed, or the cause of the refusal.
#[tactic(auto, using(cm_types::proofs::Exits::fails_then, cm_types::proofs::Exits::fails_bind, crate::proofs::Removing::types_are))]
fn typed(alloc: Global, state: &State, user: &Text, call: &DeleteType) -> Result<Types, Fail>
    ensures { Leaves result (refusal_delete_type state.now user.now (cost_delete_type call.now) call.now)
        (without_type state.now.types call.now.type_id) }
{
    judge_storage(state, weight_of_delete_type(call))?;
    if state.type_named(&call.type_id).is_none() {
        return Err(Fail::Refused(Cause::TypeNotFound));
    }
    if may_not_type(state, user) {
        return Err(Fail::Refused(Cause::Denied));
    }
    let types = state.types().without(alloc, &call.type_id)?;
    if is_used(alloc, state, &call.type_id)? {
        return Err(Fail::Refused(Cause::TypeInUse));
    }
    Ok(types)
}

// The state without the type.
fn without(
    alloc: Global,
    state: &State,
    user: &Text,
    call: &DeleteType,
    types: Types,
) -> Result<State, AllocError>
    requires allowed { refusal_delete_type state.now user.now (cost_delete_type call.now) call.now ≡ Ok tt }
    requires made { types ≡ without_type state.now.types call.now.type_id }
    ensures { IfOk result (λ s. (m : Moment) → s
        ≡ after_delete_type state.now user.now m (cost_delete_type call.now) call.now) }
{
    let _step = state.step();
    let _judged = user;
    let made = retyped(alloc, state, types, weight_of_delete_type(call))?;
    Ok(made)
}

/// Removes a type that has no subtype, and of which no object is, also as a secondary type. The caller is the administrator; no event
/// tells of the removal. The cost is the weight of the call. It looks at the objects of the type alone.
///
/// The answer is the first cause that refuses the call, or the repository after it.
pub fn delete_type(
    alloc: Global,
    state: &State,
    user: &Text,
    moment: Moment,
    call: &DeleteType,
) -> Result<State, Fail>
    ensures written { Leaves result
        (refusal_delete_type state.now user.now (cost_delete_type call.now) call.now)
        (after_delete_type state.now user.now moment (cost_delete_type call.now) call.now) }
    ensures well { IfOk result (λ s. IsWellFormed s) }
{
    let _untold = moment;
    let types = typed(alloc, state, user, call)?;
    let made = without(alloc, state, user, call, types)?;
    let _well = made.step();
    Ok(made)
}
