//! bulkUpdateProperties (CMIS 1.1, section 2.2.4.14).
ghost use Rattle.std.specs.Prelude.{◌≡◌, [], ◌++◌, ◌∷◌, fold, IfOk};
ghost use Rattle.cm_base.specs.Judged.{Writes};
ghost use Rattle.cmis_spec.specs.Well.{IsWellFormed};
ghost use Rattle.wr_bulk.specs.BulkUpdate.{cost_bulk_update, refusal_bulk_update, changed, with_changed, with_objects, after_bulk_update, acknowledgement_bulk_update};

use crate::each::{asked_of, asked_of_none, changed};
use bulk_parts::replies::{UpdatedObject, UpdatedObjects};
use bulk_parts::weight::weight_of_bulk_update;
use bulk_parts::writes::BulkUpdate;
use call_parts::changes::UpdateProperties;
use cm_base::cause::Cause;
use cm_base::fail::Fail;
use cm_base::items::Items;
use cm_base::number::Moment;
use cm_base::text::Text;
use cm_state::state::State;
use std::alloc::{AllocError, Global};
use wr_change::change::begun;
use wr_rules::storage::judge_storage;

fn with_last(all: UpdatedObjects, object: UpdatedObject) -> Result<UpdatedObjects, AllocError>
    ensures { IfOk result (λ more. more ≡ all ++ object ∷ []) }
{
    let mut all = all;
    all.push(object)?;
    Ok(all)
}

// The state so far and the objects that were changed, with what one object more made of them.
fn with_changed(
    alloc: Global,
    so_far: (State, UpdatedObjects),
    user: &Text,
    moment: Moment,
    call: &UpdateProperties,
) -> Result<(State, UpdatedObjects), AllocError>
    ensures { IfOk result (λ more. more ≡ with_changed so_far (changed so_far.0 user.now moment call.now)) }
{
    let (state, updated) = so_far;
    let token = state.step();
    let made = changed(alloc, &state, user, moment, call)?;
    match made {
        None => Ok((state, updated)),
        Some((next, id)) => {
            let more = with_last(updated, UpdatedObject { id, token })?;
            Ok((next, more))
        }
    }
}

// Each object in turn. What is asked of each is the same update of one object after another.
fn with_objects(
    alloc: Global,
    begun: State,
    user: &Text,
    moment: Moment,
    call: &BulkUpdate,
) -> Result<(State, UpdatedObjects), AllocError>
    ensures { IfOk result (λ more. more ≡ with_objects begun user.now moment call.now) }
{
    let mut asked = asked_of_none(alloc, call)?;
    let mut so_far = (begun, Items::new(alloc));
    for object in call.objects.as_slice() {
        asked = asked_of(alloc, asked, object)?;
        so_far = with_changed(alloc, so_far, user, moment, &asked)?;
    }
    Ok(so_far)
}

/// Changes the properties of several objects in one step: each in turn, as update would change it in the repository so far. An object that
/// update would refuse, its retention among the causes, is passed over. The cost is the weight of the call.
///
/// The answer is the cause that refuses the call, which is a limit of the repository, or else that the caller is `anonymous`; or the
/// repository after it and the objects that were changed, in order. What the call gives is copied once, and what an object is given
/// once more for each object that is changed.
#[tactic(auto, using(cm_types::proofs::Exits::fails_then))]
pub fn bulk_update(
    alloc: Global,
    state: &State,
    user: &Text,
    moment: Moment,
    call: &BulkUpdate,
) -> Result<(State, UpdatedObjects), Fail>
    ensures written { Writes result
        (refusal_bulk_update state.now user.now (cost_bulk_update call.now))
        (after_bulk_update state.now user.now moment (cost_bulk_update call.now) call.now)
        (acknowledgement_bulk_update state.now user.now moment (cost_bulk_update call.now) call.now) }
    ensures well { IfOk result (λ x. IsWellFormed x.0) }
{
    let cost = weight_of_bulk_update(call);
    judge_storage(state, cost)?;
    if user.is_str("anonymous") {
        return Err(Fail::Refused(Cause::Denied));
    }
    let begun = begun(alloc, state, cost)?;
    let (next, updated) = with_objects(alloc, begun, user, moment, call)?;
    let _next_step = next.step();
    Ok((next, updated))
}
