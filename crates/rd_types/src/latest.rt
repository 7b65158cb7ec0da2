//! The last event that a caller sees.
ghost use Rattle.std.specs.Prelude.{◌≡◌, ◌+◌, ◌<◌, length, if◌then◌else◌};
ghost use Rattle.cmis_spec.specs.Seen.{place_among};
ghost use Rattle.rd_types.specs.Latest.{latest_in};

use crate::events::{is_visible, place_among};
use cm_base::text::Text;
use cm_state::state::State;

// Whether the caller, whose mark has this place, sees the event behind so many.
fn is_visible_at(state: &State, user: &Text, place: usize, before: u64) -> bool
    requires place { place ≡ place_among state.now.users user.now }
    requires within { before < length state.now.log }
    ensures { latest_in state.now user.now (before + 1)
        ≡ (if result then before + 1 else latest_in state.now user.now before) }
{
    match state.log().get(before) {
        Some(event) => is_visible(state, user, place, event),
        None => false,
    }
}

/// The number of the last event that the caller sees, or 0. It goes back from the end of the log to that event, and takes no memory.
pub(crate) fn latest_event(state: &State, user: &Text) -> u64
    ensures { result ≡ latest_in state.now user.now (length state.now.log) }
{
    let place = place_among(state.users().as_slice(), user);
    let count = state.events();
    for i in 0..count {
        if is_visible_at(state, user, place, count - i - 1) {
            return count - i;
        }
    }
    0
}
