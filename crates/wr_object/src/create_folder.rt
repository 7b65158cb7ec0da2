//! createFolder (CMIS 1.1, section 2.2.4.3).
ghost use Rattle.std.specs.Prelude.{◌≡◌, [], Ok, Some, IfOk};
ghost use Rattle.cm_base.specs.Judged.{Leaves, Writes};
ghost use Rattle.cm_types.specs.declared.given.PropertyCall.TheVariants as calls;
ghost use Rattle.cm_see.specs.Addressed.{addressed};
ghost use Rattle.cmis_spec.specs.Repository.{object_at, new_number};
ghost use Rattle.cmis_spec.specs.Values.{values_kept};
ghost use Rattle.cmis_spec.specs.Well.{IsWellFormed};
ghost use Rattle.wr_object.specs.CreateFolder.{cost_create_folder, judge_found, refusal_of_folder, refusal_create_folder, folder_made, parent_of, after_create_folder, acknowledgement_create_folder};
ghost use Rattle.wr_rules.specs.Wanted.{wanted_in};

use crate::asked::{judge_values, wanted_of};
use crate::folder_rules::{judge_kinds, judge_name, judge_place};
use crate::making::{made_in, new_object};
use call_parts::replies::ObjectReply;
use call_parts::weight::weight_of_create_folder;
use call_parts::writes::CreateFolder;
use cm_base::cause::Cause;
use cm_base::fail::Fail;
use cm_base::number::{Moment, Oid};
use cm_base::object::Object;
use cm_base::text::Text;
use cm_base::value::Values;
use cm_see::address::addressed;
use cm_state::state::State;
use cm_types::definition::TypeDef;
use std::alloc::{AllocError, Global};
use wr_rules::costs::with_defaults;
use wr_rules::entries::new_aces;
use wr_rules::kinds::judge_types;
use wr_rules::made::with_reply;
use wr_rules::policies::{judge_read, policies_in};
use wr_rules::storage::judge_storage;
use wr_rules::wanted::Wanted;

fn cost_of(state: &State, call: &CreateFolder, wanted: &Wanted<'_>) -> u64
    requires wanted { wanted.now ≡ wanted_in state.now.types call.now.properties }
    ensures { result ≡ cost_create_folder state.now call.now }
{
    let weight = weight_of_create_folder(call);
    match state.types().find(&wanted.kind) {
        Some(_) => with_defaults(weight, &wanted.defs, call.properties.as_slice()),
        None => weight,
    }
}

// All lines of the refusal but those that find the parent and the type.
#[tactic(auto, using(cm_types::proofs::Exits::fails_then))]
fn judge_found(
    alloc: Global,
    state: &State,
    user: &Text,
    call: &CreateFolder,
    wanted: &Wanted<'_>,
    parent: &Object,
    kind: &TypeDef,
) -> Result<Values, Fail>
    ensures { Leaves result
        (judge_found state.now user.now call.now wanted.now parent.now kind.now)
        (values_kept calls.Create wanted.now.defs [] call.now.properties) }
{
    judge_kinds(
        alloc,
        state,
        user,
        call.policies.as_slice(),
        wanted.secondary.as_slice(),
        parent,
        kind,
    )?;
    judge_place(state, call, parent, kind)?;
    let values = judge_values(alloc, &wanted.defs, &call.properties)?;
    judge_name(state, call, parent.id, &wanted.name)?;
    Ok(values)
}

// The number of the parent and the values of the folder, or the cause of the refusal.
#[tactic(auto, using(cm_types::proofs::Exits::fails_then, cm_types::proofs::Exits::fails_bind))]
fn judge(
    alloc: Global,
    state: &State,
    user: &Text,
    cost: u64,
    call: &CreateFolder,
    wanted: &Wanted<'_>,
) -> Result<(Oid, Values), Fail>
    ensures { Writes result
        (refusal_of_folder state.now user.now cost call.now wanted.now)
        (parent_of state.now user.now call.now)
        (values_kept calls.Create wanted.now.defs [] call.now.properties) }
{
    judge_storage(state, cost)?;
    let parent = addressed(state, user, &call.place).ok_or(Cause::NotFound)?;
    judge_read(state, user, call.policies.as_slice())?;
    let kind = state.types().find(&wanted.kind).ok_or(Cause::TypeNotFound)?;
    judge_types(state.types(), wanted.secondary.as_slice())?;
    let values = judge_found(alloc, state, user, call, wanted, parent, kind)?;
    Ok((parent.id, values))
}

fn with_folder(
    alloc: Global,
    state: &State,
    user: &Text,
    moment: Moment,
    cost: u64,
    call: &CreateFolder,
    object: Object,
    parent: Oid,
) -> Result<State, AllocError>
    requires allowed { refusal_create_folder state.now user.now moment cost call.now ≡ Ok tt }
    requires object { object ≡ folder_made state.now user.now moment call.now }
    requires parent { parent ≡ parent_of state.now user.now call.now }
    ensures { IfOk result (λ s. s ≡ after_create_folder state.now user.now moment cost call.now) }
{
    let _step = state.step();
    let aces = new_aces(alloc, user, call.remove.as_slice(), call.add.as_slice())?;
    let policies = policies_in(alloc, state, user, call.policies.as_slice())?;
    let policies = policies.as_slice();
    let draft = made_in(alloc, state, object, aces, policies, parent, cost, moment)?;
    Ok(draft.seal())
}

/// Makes a folder, which has the next number. The cost is the weight of the call and the default values that the folder takes.
///
/// The answer is the first cause that refuses the call, or the repository after it.
pub fn folder_created(
    alloc: Global,
    state: &State,
    user: &Text,
    moment: Moment,
    call: &CreateFolder,
) -> Result<State, Fail>
    ensures created { Leaves result
        (refusal_create_folder state.now user.now moment (cost_create_folder state.now call.now) call.now)
        (after_create_folder state.now user.now moment (cost_create_folder state.now call.now) call.now) }
    ensures there { IfOk result (λ s. object_at s (new_number state.now)
        ≡ Some (folder_made state.now user.now moment call.now)) }
    ensures well { IfOk result (λ s. IsWellFormed s) }
{
    let _step = state.step();
    let wanted = wanted_of(alloc, state, &call.properties)?;
    let cost = cost_of(state, call, &wanted);
    let (parent, values) = judge(alloc, state, user, cost, call, &wanted)?;
    let object = new_object(alloc, state, user, moment, wanted, values)?;
    let made = with_folder(alloc, state, user, moment, cost, call, object, parent)?;
    let _made_step = made.step();
    Ok(made)
}

/// Makes a folder, as `folder_created` does, and shows it as the caller sees it after the step.
pub fn create_folder(
    alloc: Global,
    state: &State,
    user: &Text,
    moment: Moment,
    call: &CreateFolder,
) -> Result<(State, ObjectReply), Fail>
    ensures written { Writes result
        (refusal_create_folder state.now user.now moment (cost_create_folder state.now call.now) call.now)
        (after_create_folder state.now user.now moment (cost_create_folder state.now call.now) call.now)
        (acknowledgement_create_folder state.now user.now moment (cost_create_folder state.now call.now) call.now) }
    ensures well { IfOk result (λ x. IsWellFormed x.0) }
{
    let number = Oid(state.next_number());
    let made = folder_created(alloc, state, user, moment, call)?;
    let (next, reply) = with_reply(alloc, made, user, call.succinct, number)?;
    let _next_step = next.step();
    Ok((next, reply))
}
