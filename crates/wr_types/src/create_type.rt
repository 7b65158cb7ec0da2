//! createType (CMIS 1.1, section 2.2.2.6).
ghost use Rattle.std.specs.Prelude.{◌≡◌, Ok, IfOk};
ghost use Rattle.cm_base.specs.Judged.{Leaves, Writes};
ghost use Rattle.cm_types.specs.Changes.{lacks_parent, placed_type};
ghost use Rattle.cm_base.specs.declared.number.Moment.{Moment};
ghost use Rattle.cmis_spec.specs.Well.{IsWellFormed};
ghost use Rattle.wr_types.specs.CreateType.{cost_create_type, refusal_create_type, new_type, after_create_type, acknowledgement_create_type};

use crate::retyped::{may_not_type, retyped, with_reply};
use cm_base::cause::Cause;
use cm_base::fail::Fail;
use cm_base::number::Moment;
use cm_base::text::Text;
use cm_state::state::State;
use cm_type_list::types::Types;
use cm_types::request::TypeRequest;
use std::alloc::{AllocError, Global};
use type_change_parts::weight::weight_of_create_type;
use type_change_parts::writes::CreateType;
use type_parts::replies::TypeReply;
use wr_rules::storage::judge_storage;

fn lacks_parent(types: &Types, request: &TypeRequest) -> bool
    ensures { result ≡ lacks_parent types.now request.now }
{
    match &request.parent {
        Some(parent) => types.find(parent).is_none(),
        None => false,
    }
}

// The types with the new one, or the cause of the refusal.
#[tactic(auto, using(cm_types::proofs::Exits::fails_then, cm_types::proofs::Exits::fails_bind, crate::proofs::Making::types_are))]
fn typed(alloc: Global, state: &State, user: &Text, call: &CreateType) -> Result<Types, Fail>
    ensures { Leaves result (refusal_create_type state.now user.now (cost_create_type call.now) call.now)
        (placed_type (new_type state.now.types call.now.definition) state.now.types) }
{
    judge_storage(state, weight_of_create_type(call))?;
    if lacks_parent(state.types(), &call.definition) {
        return Err(Fail::Refused(Cause::TypeNotFound));
    }
    if may_not_type(state, user) {
        return Err(Fail::Refused(Cause::Denied));
    }
    let types = state.types().with_type(alloc, &call.definition)?;
    Ok(types)
}

// The state with the new type.
fn with_new(
    alloc: Global,
    state: &State,
    user: &Text,
    call: &CreateType,
    types: Types,
) -> Result<State, AllocError>
    requires allowed { refusal_create_type state.now user.now (cost_create_type call.now) call.now ≡ Ok tt }
    requires made { types ≡ placed_type (new_type state.now.types call.now.definition) state.now.types }
    ensures { IfOk result (λ s. (m : Moment) → s
        ≡ after_create_type state.now user.now m (cost_create_type call.now) call.now) }
{
    let _step = state.step();
    let _judged = user;
    let made = retyped(alloc, state, types, weight_of_create_type(call))?;
    Ok(made)
}

/// Makes a type below its parent. The caller is the administrator; no event tells of the type. The cost is the weight of the call.
///
/// The answer is the first cause that refuses the call, or the repository after it and the type with its property definitions.
pub fn create_type(
    alloc: Global,
    state: &State,
    user: &Text,
    moment: Moment,
    call: &CreateType,
) -> Result<(State, TypeReply), Fail>
    ensures written { Writes result
        (refusal_create_type state.now user.now (cost_create_type call.now) call.now)
        (after_create_type state.now user.now moment (cost_create_type call.now) call.now)
        (acknowledgement_create_type state.now user.now moment (cost_create_type call.now) call.now) }
    ensures well { IfOk result (λ x. IsWellFormed x.0) }
{
    let _untold = moment;
    let types = typed(alloc, state, user, call)?;
    let made = with_new(alloc, state, user, call, types)?;
    let (next, reply) = with_reply(alloc, made, &call.definition.id, true)?;
    let _next_step = next.step();
    Ok((next, reply))
}
