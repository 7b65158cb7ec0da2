//! The step of an update, and the object that it changes in that step.
ghost use Rattle.std.specs.Prelude.{◌≡◌, Ok, Some, IfOk};
ghost use Rattle.cmis_spec.specs.Repository.{object_at};
ghost use Rattle.cmis_spec.specs.Changes.{stepped};
ghost use Rattle.cmis_spec.specs.Well.{IsWellFormed};
ghost use Rattle.wr_rules.specs.Rules.{judge_storage};
ghost use Rattle.wr_rules.specs.Documents.{name_after};
ghost use Rattle.wr_change.specs.Update.{secondary_updated, values_updated, name_kept, placed, changed_in};
ghost use Rattle.wr_change.specs.UpdateParts.{MayChange};

use crate::putting::{put_in, series_renamed};
use crate::secondary::secondary_updated;
use call_parts::changes::UpdateProperties;
use cm_base::copies::Copies;
use cm_base::number::Moment;
use cm_base::object::Object;
use cm_base::text::Text;
use cm_base::value::Values;
use cm_draft::draft::Draft;
use cm_state::state::State;
use std::alloc::{AllocError, Global};
use wr_version::after::name_after;

/// The state one step further, at this cost.
pub fn begun(alloc: Global, state: &State, cost: u64) -> Result<State, AllocError>
    requires allowed { judge_storage state.now cost ≡ Ok tt }
    ensures { IfOk result (λ s. s ≡ stepped state.now cost) }
{
    let _step = state.step();
    let begun = Draft::of(alloc, state)?;
    let paid = begun.stepped(cost);
    Ok(paid.seal())
}

// A version has the name of its series, everything else one of its own.
fn name_kept(
    alloc: Global,
    state: &State,
    call: &UpdateProperties,
    x: &Object,
) -> Result<Option<Text>, AllocError>
    ensures { IfOk result (λ t. t ≡ name_kept x.now.name (name_after state.now x.now call.now.properties)) }
{
    match &x.name {
        Some(_) => {
            let name = name_after(alloc, state, x, call.properties.as_slice())?;
            Ok(Some(name))
        }
        None => Ok(None),
    }
}

// The object with its new name, secondary types and values.
fn with_values(
    alloc: Global,
    state: &State,
    call: &UpdateProperties,
    x: &Object,
    values: Values,
) -> Result<Object, AllocError>
    ensures { IfOk result (λ y. y ≡ record x.now {
      name = name_kept x.now.name (name_after state.now x.now call.now.properties);
      secondary = secondary_updated call.now x.now;
      values = values;
    }) }
{
    let name = name_kept(alloc, state, call, x)?;
    let secondary = secondary_updated(alloc, call, x)?;
    let old = x.copied(alloc)?;
    Ok(Object {
        name,
        secondary,
        values,
        ..old
    })
}

// The object as the caller changed it in the step that was taken last.
fn changed_by(
    alloc: Global,
    state: &State,
    user: &Text,
    moment: Moment,
    object: Object,
) -> Result<Object, AllocError>
    ensures { IfOk result (λ x. x
        ≡ record object { modified_by = user.now; modified_at = moment; token = state.now.step }) }
{
    let modified_by = user.copied(alloc)?;
    Ok(Object {
        modified_by,
        modified_at: moment,
        token: state.step(),
        ..object
    })
}

// The state in which the new object stands in place of the old one.
fn placed(
    alloc: Global,
    state: &State,
    call: &UpdateProperties,
    x: &Object,
    new: Object,
) -> Result<State, AllocError>
    requires there { object_at state.now x.now.id ≡ Some x.now }
    requires id { new.id ≡ x.now.id }
    requires well { IsWellFormed (placed state.now call.now x.now new) }
    ensures { IfOk result (λ s. s ≡ placed state.now call.now x.now new) }
{
    let _step = state.step();
    let name = name_after(alloc, state, x, call.properties.as_slice())?;
    let series = series_renamed(alloc, state, x, name)?;
    let draft = put_in(alloc, state, new, series)?;
    Ok(draft.seal())
}

/// The state in which the object that is found is changed as the call asks, in the step that was taken last, with its event. The values
/// are those that it then has.
pub fn changed_in(
    alloc: Global,
    state: &State,
    user: &Text,
    moment: Moment,
    call: &UpdateProperties,
    found: (&Object, Values),
) -> Result<State, AllocError>
    requires right { MayChange state.now call.now found.0.now }
    requires values { found.1 ≡ values_updated state.now call.now found.0.now }
    ensures { IfOk result (λ s. s ≡ changed_in state.now user.now moment call.now found.entry.0.now) }
{
    let _step = state.step();
    let (x, values) = found;
    let kept = with_values(alloc, state, call, x, values)?;
    let new = changed_by(alloc, state, user, moment, kept)?;
    let made = placed(alloc, state, call, x, new)?;
    Ok(made)
}
