//! The opening of a repository.
ghost use Rattle.std.specs.Prelude.{◌≡◌, ◌≤◌, map, IfOk};
ghost use Rattle.cm_types.specs.BaseTypes.{base_types};
ghost use Rattle.cm_base.specs.Limits.{greatest_limit, AreLimits};
ghost use Rattle.cmis_spec.specs.Repository.{opening};
ghost use Rattle.cmis_spec.specs.Well.{HasGroups};

use cm_base::limits::Start;
use cm_base::user::{Groups, Users};
use cm_basetypes::base_types::base_types;
use cm_state::state::State;
use std::alloc::{AllocError, Global};

/// The repository of these users and groups with the base types and the root, which the first user made at the moment of the start.
pub fn open(alloc: Global, users: &Users, groups: Groups, start: Start) -> Result<State, AllocError>
    requires groups { HasGroups (map (λ u. u.name) users.now) groups }
    requires bound { start.first_step ≤ greatest_limit }
    requires limits { AreLimits start.limits }
    ensures { IfOk result (λ state. state ≡ opening base_types users.now groups start) }
{
    let types = base_types(alloc)?;
    let state = State::opening(alloc, types, users, groups, start)?;
    Ok(state)
}
