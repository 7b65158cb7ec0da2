//! createItem (CMIS 1.1, section 2.2.4.6).
ghost use Rattle.std.specs.Prelude.{◌≡◌, [], Ok, IfOk, option_and_then};
ghost use Rattle.std.specs.Option.{option_copied};
ghost use Rattle.cm_base.specs.Judged.{Leaves, Writes};
ghost use Rattle.cm_types.specs.declared.given.PropertyCall.TheVariants as calls;
ghost use Rattle.cmis_spec.specs.Values.{values_kept};
ghost use Rattle.cm_see.specs.Addressed.{addressed};
ghost use Rattle.cmis_spec.specs.Well.{IsWellFormed};
ghost use Rattle.wr_object.specs.CreateDocument.{number_of};
ghost use Rattle.wr_rules.specs.Wanted.{wanted_in};
ghost use Rattle.wr_create.specs.CreateItem.{cost_create_item, judge_place, judge_item, refusal_of_item, refusal_create_item, after_create_item, acknowledgement_create_item};

use crate::making::{made_with_reply, with_request};
use crate::rules::{cost_of_making, is_uncontrollable, judge_request, judge_type};
use call_parts::replies::ObjectReply;
use cm_base::cause::Cause;
use cm_base::fail::Fail;
use cm_base::number::{Moment, Oid};
use cm_base::object::Object;
use cm_base::text::Text;
use cm_base::value::Values;
use cm_state::state::State;
use cm_types::definition::{BaseType, TypeDef};
use create_parts::weight::weight_of_create_item;
use create_parts::writes::CreateItem;
use std::alloc::Global;
use wr_object::asked::wanted_of;
use wr_object::document_rules::{
    bars_filing, bars_kind, folder_of, is_name_taken, is_wrong_place, may_not_make, number_of,
};
use wr_object::making::new_object;
use wr_rules::kinds::judge_types;
use wr_rules::policies::judge_read;
use wr_rules::storage::judge_storage;
use wr_rules::wanted::Wanted;

// The folder takes an item of the type, and the type lets what is asked be applied to it.
fn judge_place(
    state: &State,
    call: &CreateItem,
    folder: Option<&Object>,
    kind: &TypeDef,
) -> Result<(), Cause>
    ensures { result ≡ judge_place state.now call.now (option_copied folder.entry) kind.now }
{
    if bars_filing(folder, kind) {
        return Err(Cause::NotFileable);
    }
    if bars_kind(state, folder, &kind.id) {
        return Err(Cause::ChildType);
    }
    if is_uncontrollable(kind, &call.object) {
        return Err(Cause::NotControllable);
    }
    Ok(())
}

// The values of the item, or the first of the causes that come once its folder and its type are found.
#[tactic(auto, using(cm_types::proofs::Exits::fails_then))]
fn judge_item(
    alloc: Global,
    state: &State,
    user: &Text,
    call: &CreateItem,
    wanted: &Wanted<'_>,
    folder: Option<&Object>,
    kind: &TypeDef,
) -> Result<Values, Fail>
    ensures { Leaves result
        (judge_item state.now user.now call.now wanted.now (option_copied folder.entry) kind.now)
        (values_kept calls.Create wanted.now.defs [] call.now.object.properties) }
{
    if may_not_make(state, user, folder) {
        return Err(Fail::Refused(Cause::Denied));
    }
    if is_wrong_place(state, user, folder, call.object.policies.as_slice()) {
        return Err(Fail::Refused(Cause::WrongKind));
    }
    judge_type(alloc, state.types(), BaseType::Item, wanted, kind)?;
    judge_place(state, call, folder, kind)?;
    let values = judge_request(alloc, wanted, &call.object, &call.object.properties)?;
    if is_name_taken(state, folder, &wanted.name) {
        return Err(Fail::Refused(Cause::NameTaken));
    }
    Ok(values)
}

// The number of the folder, if there is one, and the values of the item, or the cause of the refusal.
#[tactic(auto, using(cm_types::proofs::Exits::fails_then, cm_types::proofs::Exits::fails_bind))]
fn judge_wanted(
    alloc: Global,
    state: &State,
    user: &Text,
    cost: u64,
    call: &CreateItem,
    wanted: &Wanted<'_>,
) -> Result<(Option<Oid>, Values), Fail>
    ensures { Writes result
        (refusal_of_item state.now user.now cost call.now wanted.now)
        (number_of (option_and_then (addressed state.now user.now) call.now.place))
        (values_kept calls.Create wanted.now.defs [] call.now.object.properties) }
{
    judge_storage(state, cost)?;
    let folder = folder_of(state, user, &call.place)?;
    judge_read(state, user, call.object.policies.as_slice())?;
    let kind = state.types().find(&wanted.kind).ok_or(Cause::TypeNotFound)?;
    judge_types(state.types(), wanted.secondary.as_slice())?;
    let values = judge_item(alloc, state, user, call, wanted, folder, kind)?;
    Ok((number_of(folder), values))
}

fn cost_of(state: &State, call: &CreateItem, wanted: &Wanted<'_>) -> u64
    requires wanted { wanted.now ≡ wanted_in state.now.types call.now.object.properties }
    ensures { result ≡ cost_create_item state.now call.now }
{
    cost_of_making(
        state,
        weight_of_create_item(call),
        wanted,
        &call.object.properties,
    )
}

/// Makes an item. The cost is the weight of the call and the default values that the item takes.
///
/// The answer is the first cause that refuses the call, or the repository after it and the new item as the caller sees it there.
pub fn create_item(
    alloc: Global,
    state: &State,
    user: &Text,
    moment: Moment,
    call: &CreateItem,
) -> Result<(State, ObjectReply), Fail>
    ensures written { Writes result
        (refusal_create_item state.now user.now (cost_create_item state.now call.now) call.now)
        (after_create_item state.now user.now moment (cost_create_item state.now call.now) call.now)
        (acknowledgement_create_item state.now user.now moment (cost_create_item state.now call.now) call.now) }
    ensures well { IfOk result (λ x. IsWellFormed x.0) }
{
    let _step = state.step();
    let wanted = wanted_of(alloc, state, &call.object.properties)?;
    let cost = cost_of(state, call, &wanted);
    let (folder, values) = judge_wanted(alloc, state, user, cost, call, &wanted)?;
    let object = new_object(alloc, state, user, moment, wanted, values)?;
    let new = with_request(alloc, state, user, object, &call.object, folder)?;
    let (next, reply) = made_with_reply(alloc, state, user, new, cost, call.succinct)?;
    let _next_step = next.step();
    Ok((next, reply))
}
