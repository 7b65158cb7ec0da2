//! Ways up the folder tree.
ghost use Rattle.std.specs.Prelude.{◌≡◌, ◌+◌, ◌-◌, ◌<◌, ◌≤◌, length, Some, None};
ghost use Rattle.std.specs.List.{list_any};
ghost use Rattle.cmis_spec.specs.Repository.{same, upwards, levels_up, depth_of, is_under};

use cm_base::number::Oid;
use cm_state::state::State;

/// The most folders on a way up, the root counted.
#[tactic(auto, unfolding(cmis_spec::specs::Repository::levels_up))]
pub fn levels_up() -> u64
    ensures value { result ≡ levels_up }
    ensures bound { result < 50 }
{
    49
}

// How many folders stand on the way up, this one counted.
fn count_up(state: &State, levels: u64, folder: Oid) -> u64
    ensures value { result ≡ length (upwards levels state.now.filed folder) }
    ensures bound { result ≤ levels }
{
    if levels == 0 {
        return 0;
    }
    match state.parent(folder) {
        Some(above) => 1 + count_up(state, levels - 1, above),
        None => 1,
    }
}

fn is_on_way(state: &State, levels: u64, folder: Oid, top: Oid) -> bool
    ensures { result ≡ list_any (same top) (upwards levels state.now.filed folder) }
{
    if levels == 0 {
        return false;
    }
    if top == folder {
        return true;
    }
    match state.parent(folder) {
        Some(above) => is_on_way(state, levels - 1, above, top),
        None => false,
    }
}

/// Whether the folder is the top one, or stands below it.
pub fn is_under(state: &State, folder: Oid, top: Oid) -> bool
    ensures { result ≡ is_under state.now folder top }
{
    is_on_way(state, levels_up(), folder, top)
}

/// How many pairs lie between the root and the folder.
pub fn depth_of(state: &State, folder: Oid) -> u64
    ensures value { result ≡ depth_of state.now folder }
    ensures bound { result < 50 }
{
    count_up(state, levels_up(), folder).saturating_sub(1)
}
