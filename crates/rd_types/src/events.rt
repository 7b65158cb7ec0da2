//! Which events a caller sees (CMIS 1.1, section 2.1.15): those of an object that is there by its reading, those of an object that is gone
//! by what its deletion keeps.
ghost use Rattle.std.specs.Prelude.{◌≡◌, ◌≤◌, length};
ghost use Rattle.cmis_spec.specs.Seen.{is_visible, marked, place_among};

use cm_base::log::{Change, Marks};
use cm_base::text::Text;
use cm_see::read::reads;
use cm_state::state::State;

/// The place of the caller's mark: that of the user in the list, and the one after them for anybody else.
pub fn place_among(names: &[Text], user: &Text) -> usize
    ensures place { result ≡ place_among names.now user.now }
    ensures few { result ≤ length names.now }
{
    match names {
        [] => 0,
        [name, rest @ ..] => {
            if name.is(user) {
                0
            } else {
                place_among(rest, user) + 1
            }
        }
    }
}

fn marked(marks: &Marks, place: usize) -> bool
    ensures { result ≡ marked marks.now place }
{
    if place < marks.len() {
        marks.as_slice()[place]
    } else {
        false
    }
}

/// Whether the caller, whose mark has this place, sees the event. It takes no memory, and looks at no other event than the deletion of
/// the object, where that is gone.
pub fn is_visible(state: &State, user: &Text, place: usize, event: &Change) -> bool
    requires place { place ≡ place_among state.now.users user.now }
    ensures { result ≡ is_visible state.now user.now event.now }
{
    match state.object(event.object) {
        Some(x) => reads(state, user, x),
        None => match state.log().deletion_of(event.object) {
            Some(deletion) => marked(&deletion.readers, place),
            None => false,
        },
    }
}
