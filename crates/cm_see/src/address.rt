//! The object that a call addresses.
ghost use Rattle.std.specs.Prelude.{◌≡◌};
ghost use Rattle.std.specs.Option.{option_copied};
ghost use Rattle.cm_see.specs.Addressed.{addressed};

use crate::path::at_path;
use crate::read::read_named;
use call_parts::place::Place;
use cm_base::object::Object;
use cm_base::text::Text;
use cm_state::state::State;

/// The object by its id, or by the names from the root on, where the caller reads it (CMIS 1.1, section 5.3.4). Takes no memory.
pub fn addressed<'a>(state: &'a State, user: &Text, place: &Place) -> Option<&'a Object>
    ensures { option_copied result ≡ addressed state.now user.now place.now }
{
    match place {
        Place::Id(id) => read_named(state, user, id),
        Place::Path(names) => at_path(state, user, names.as_slice()),
    }
}
