//! How the repositories of runs start.
ghost use Rattle.std.specs.Prelude.{◌≡◌, ◌≤◌, map, IfOk};
ghost use Rattle.cm_base.specs.Limits.{greatest_limit, AreLimits};
ghost use Rattle.cm_types.specs.BaseTypes.{base_types};
ghost use Rattle.cmis_spec.specs.Repository.{opening};
ghost use Rattle.cmis_spec.specs.Well.{HasGroups};
ghost use Rattle.cmis_runs.specs.Starts.{start_at};

use cm_base::limits::{Limits, Start};
use cm_base::number::Moment;
use cm_base::user::{Groups, Users};
use cm_opening::open::open;
use cm_state::state::State;
use std::alloc::{AllocError, Global};

// The start at this moment, with this step number, under the usual limits.
#[tactic(auto, unfolding(cm_base::specs::Limits::greatest_limit))]
fn start_at(root: Moment, from: u64) -> Start
    requires { from ≤ 1048576 }
    ensures value { result ≡ start_at root from }
    ensures bound { result.first_step ≤ greatest_limit }
    ensures limits { AreLimits result.limits }
{
    Start {
        moment: root,
        first_step: from,
        limits: Limits::usual(),
    }
}

/// The repository with the root alone, made at this moment, with this step number, under the usual limits.
pub(crate) fn open_at(
    alloc: Global,
    users: &Users,
    groups: Groups,
    root: Moment,
    from: u64,
) -> Result<State, AllocError>
    requires groups { HasGroups (map (λ u. u.name) users.now) groups }
    requires from { from ≤ 1048576 }
    ensures { IfOk result (λ state. state ≡ opening base_types users.now groups (start_at root from)) }
{
    let start = start_at(root, from);
    let state = open(alloc, users, groups, start)?;
    Ok(state)
}
