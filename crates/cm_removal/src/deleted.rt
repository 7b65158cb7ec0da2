//! Objects deleted.
ghost use Rattle.std.specs.Prelude.{◌≡◌, IfOk};
ghost use Rattle.cmis_spec.specs.Removal.{among, removed, deleted};
ghost use Rattle.cm_removal.specs.Steps.{unlisted};

use crate::entries::{entries_of, leaving, without_lists, without_pairs};
use crate::gone::Gone;
use crate::marks::noted;
use crate::objects::{without_contents, without_objects, without_policies, without_renditions};
use crate::series::with_lefts;
use crate::ties::going;
use cm_base::number::{Moment, Oid};
use cm_draft::draft::Draft;
use cm_state::state::State;
use std::alloc::{AllocError, Global};

// The state without the entries of what goes: their pairs, their lists, and their series.
fn unlisted(alloc: Global, state: &State, gone: &Gone) -> Result<Draft, AllocError>
    ensures { IfOk result (λ d. d ≡ unlisted state.now (among gone.now)) }
{
    let _well = state.step();
    let draft = Draft::of(alloc, state)?;
    let entries = entries_of(alloc, state, gone.as_slice())?;
    let leaving = leaving(alloc, state, gone, entries.as_slice())?;
    let unfiled = without_pairs(alloc, state, draft, leaving.as_slice())?;
    let bare = without_lists(alloc, unfiled, leaving.as_slice())?;
    let left = with_lefts(alloc, bare, gone, entries.as_slice())?;
    Ok(left)
}

/// A draft of the state without the objects of these numbers: with them go their contents and renditions, the policies on them, and what is filed, named and
/// listed by them, or by the last document of a series.
pub fn removed(alloc: Global, state: &State, gone: &Gone) -> Result<Draft, AllocError>
    ensures { IfOk result (λ d. d ≡ removed state.now (among gone.now)) }
{
    let draft = unlisted(alloc, state, gone)?;
    let bare = without_policies(alloc, draft, gone.as_slice())?;
    let plain = without_renditions(alloc, bare, gone.as_slice())?;
    let empty = without_contents(alloc, plain, gone.as_slice())?;
    let left = without_objects(alloc, empty, gone.as_slice())?;
    Ok(left)
}

/// A draft of the state in which these objects are deleted, and the relationships that they end (CMIS 1.1, sections 2.1.3 and 2.1.6), each with an event that
/// keeps who read it just before.
pub fn deleted(
    alloc: Global,
    state: &State,
    moment: Moment,
    numbers: &[Oid],
) -> Result<Draft, AllocError>
    ensures { IfOk result (λ d. d ≡ deleted state.now moment numbers.now) }
{
    let gone = going(alloc, state, numbers)?;
    let left = removed(alloc, state, &gone)?;
    let told = noted(alloc, state, left, moment, gone.as_slice())?;
    Ok(told)
}
