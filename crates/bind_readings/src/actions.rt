//! The arguments of allowableActions.
ghost use Rattle.std.specs.Prelude.{◌≡◌};
ghost use Rattle.cm_base.specs.Judged.{Meets};
ghost use Rattle.bind_readings.specs.Actions.{actions_of};

use action_parts::readings::ReadActions;
use bind_parts::asking::Asking;
use bind_parts::parts::place_of;
use cm_base::fail::Fail;
use std::alloc::Global;

/// The question of the selector allowableActions; its arguments have no causes.
pub fn actions_of(alloc: Global, asking: &Asking) -> Result<ReadActions, Fail>
    ensures { Meets (λ c. c) result (actions_of asking.now) }
{
    let place = place_of(alloc, asking)?;
    Ok(ReadActions { place })
}
