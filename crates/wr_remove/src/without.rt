//! A state without objects, one step later.
ghost use Rattle.std.specs.Prelude.{◌≡◌, ◌+◌, ◌<◌, ◌^◌, IfOk};
ghost use Rattle.cmis_spec.specs.Changes.{stepped};
ghost use Rattle.cmis_spec.specs.Removal.{deleted};
ghost use Rattle.cmis_spec.specs.Well.{IsWellFormed};

use cm_base::number::{Moment, Oid};
use cm_removal::deleted::deleted;
use cm_state::state::State;
use std::alloc::{AllocError, Global};

/// The state without these objects and what goes with them, one step later at this cost.
pub(crate) fn without(
    alloc: Global,
    state: &State,
    moment: Moment,
    cost: u64,
    numbers: &[Oid],
) -> Result<State, AllocError>
    requires step { state.now.step + 1 < 2 ^ 64 }
    requires cost { state.now.cost + cost < 2 ^ 64 }
    requires well { IsWellFormed (stepped (deleted state.now moment numbers.now) cost) }
    ensures { IfOk result (λ s. s ≡ stepped (deleted state.now moment numbers.now) cost) }
{
    let draft = deleted(alloc, state, moment, numbers)?;
    let next = draft.stepped(cost);
    Ok(next.seal())
}
