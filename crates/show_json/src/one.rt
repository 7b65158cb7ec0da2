//! One object, written as JSON from the state (CMIS 1.1, sections 2.2.4.8 and 2.2.4.9).
ghost use Rattle.std.specs.Prelude.{◌≡◌, IfOk};
ghost use Rattle.serde_json.specs.Written.{compact_text};
ghost use Rattle.cm_base.specs.Judged.{Meets};
ghost use Rattle.cm_see.specs.Shown.{shown_object};
ghost use Rattle.object_json.specs.Objects.{shown_data};
ghost use Rattle.rd_nav.specs.ReadObject.{answer_addressed};
ghost use Rattle.show_json.specs.Columns.{object_answer_text};

use crate::column::columns_of;
use crate::object::write_object;
use crate::sight::{Sight, base_of};
use bytes::Bytes;
use call_parts::place::Place;
use call_parts::readings::PropertyFilter;
use cm_base::cause::Cause;
use cm_base::fail::Fail;
use cm_base::object::Object;
use cm_base::text::Text;
use cm_see::address::addressed;
use cm_state::state::State;
use json_text::write::Writer;
use std::alloc::{AllocError, Global};

// Room for what is shown of most objects.
const ROOM: usize = 1024;

/// The text of an object as the caller sees it.
#[tactic(auto, using(crate::specs::ColumnLaws::object_seen))]
pub fn text_of_object(
    alloc: Global,
    state: &State,
    user: &Text,
    filter: &PropertyFilter,
    succinct: bool,
    x: &Object,
) -> Result<Bytes, AllocError>
    ensures { IfOk result (λ b. b
        ≡ compact_text (shown_data (shown_object state.now user.now filter.now succinct x.now))) }
{
    let columns = columns_of(alloc, state, filter, x)?;
    let sight = Sight::new(alloc, state, user, x, base_of(state, x));
    let mut out = Writer::with_room(alloc, ROOM)?;
    write_object(&mut out, &sight, succinct, &columns)?;
    let text = out.into_vec();
    let body = Bytes::from_vec(text)?;
    Ok(body)
}

/// The text of the object that is addressed: the compact text of what the reading of it answers.
pub fn object_text(
    alloc: Global,
    state: &State,
    user: &Text,
    place: &Place,
    filter: &PropertyFilter,
    succinct: bool,
) -> Result<Bytes, Fail>
    ensures { Meets (λ y. y) result (object_answer_text
        (answer_addressed state.now user.now place.now filter.now succinct)) }
{
    match addressed(state, user, place) {
        Some(x) => {
            let text = text_of_object(alloc, state, user, filter, succinct, x)?;
            Ok(text)
        }
        None => Err(Fail::Refused(Cause::NotFound)),
    }
}
