//! One object of the call: the update that is asked of it, and the state with the object changed.
ghost use Rattle.std.specs.Prelude.{◌≡◌, IfOk, IfSome};
ghost use Rattle.cm_see.specs.Addressed.{addressed};
ghost use Rattle.wr_change.specs.Update.{refusal_one, values_updated};
ghost use Rattle.wr_change.specs.UpdateParts.{MayChange};
ghost use Rattle.wr_bulk.specs.BulkUpdate.{changed};
ghost use Rattle.wr_bulk.specs.Parts.{AsksOfOne, Passes, asked_of};

use bulk_parts::writes::{BulkUpdate, ObjectIdAndChangeToken};
use call_parts::changes::UpdateProperties;
use call_parts::place::Place;
use cm_base::copies::Copies;
use cm_base::fail::Fail;
use cm_base::number::{Moment, Oid};
use cm_base::object::Object;
use cm_base::text::Text;
use cm_base::value::Values;
use cm_state::state::State;
use std::alloc::{AllocError, Global};
use wr_change::change::changed_in;
use wr_change::update::judge_one;

/// The update that the call asks for, of no object yet. What the call gives is copied here, and for no object again.
pub(crate) fn asked_of_none(
    alloc: Global,
    call: &BulkUpdate,
) -> Result<UpdateProperties, AllocError>
    ensures { IfOk result (λ asked. AsksOfOne call.now asked) }
{
    Ok(UpdateProperties {
        place: Place::Id(Text::empty(alloc)),
        properties: call.properties.copied(alloc)?,
        remove_secondary: call.remove_secondary.copied(alloc)?,
        add_secondary: call.add_secondary.copied(alloc)?,
        token: None,
        succinct: false,
    })
}

/// The same update of this object, with the change token that the caller has of it.
pub(crate) fn asked_of(
    alloc: Global,
    asked: UpdateProperties,
    object: &ObjectIdAndChangeToken,
) -> Result<UpdateProperties, AllocError>
    ensures { IfOk result (λ c. c ≡ asked_of asked object.now) }
{
    let id = object.id.copied(alloc)?;
    let token = Copies::copied(&object.token, alloc)?;
    Ok(UpdateProperties {
        place: Place::Id(id),
        token,
        ..asked
    })
}

// The object and the values that it then has; none where update would refuse it.
fn passed<'a>(
    alloc: Global,
    state: &'a State,
    user: &Text,
    moment: Moment,
    call: &UpdateProperties,
) -> Result<Option<(&'a Object, Values)>, AllocError>
    ensures judged { IfOk result (λ found. Passes (λ x. x.now) found
        (refusal_one state.now user.now moment call.now)
        (addressed state.now user.now call.now.place)
        (values_updated state.now call.now)) }
    ensures right { IfOk result (λ found. IfSome found (λ a. MayChange state.now call.now a.0.now)) }
{
    match judge_one(alloc, state, user, moment, call) {
        Ok(found) => Ok(Some(found)),
        Err(Fail::Refused(_)) => Ok(None),
        Err(Fail::Memory) => Err(AllocError),
    }
}

/// The state with the object changed in the step that was taken last, and the number of the object; none where update would refuse it.
pub(crate) fn changed(
    alloc: Global,
    state: &State,
    user: &Text,
    moment: Moment,
    call: &UpdateProperties,
) -> Result<Option<(State, Oid)>, AllocError>
    ensures { IfOk result (λ made. made ≡ changed state.now user.now moment call.now) }
{
    let found = passed(alloc, state, user, moment, call)?;
    match found {
        None => Ok(None),
        Some((x, values)) => {
            let made = changed_in(alloc, state, user, moment, call, (x, values))?;
            Ok(Some((made, x.id)))
        }
    }
}
