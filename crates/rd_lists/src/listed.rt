//! Lists of objects that are not cut into pages.
ghost use Rattle.std.specs.Prelude.{◌≡◌, IfOk, map};
ghost use Rattle.cm_map.specs.Parts.{pointee};
ghost use Rattle.cm_base.specs.Judged.{Meets};
ghost use Rattle.cm_see.specs.Shown.{shown_object};
ghost use Rattle.rd_lists.specs.Listed.{is_too_long, most_listed, objects_reply};

use call_parts::readings::PropertyFilter;
use call_parts::replies::{ObjectsReply, ShownObjects};
use cm_base::cause::Cause;
use cm_base::fail::Fail;
use cm_base::items::Items;
use cm_base::object::Object;
use cm_base::text::Text;
use cm_see::shown::shown_object;
use cm_state::state::State;
use std::alloc::{AllocError, Global};

#[tactic(auto, unfolding(crate::specs::Listed::most_listed))]
fn most_listed() -> u64
    ensures { result ≡ most_listed }
{
    5000
}

/// Whether a list of so many objects is too long for a reply that is not cut into pages.
pub fn is_too_long(count: u64) -> bool
    ensures { result ≡ is_too_long count }
{
    most_listed() < count
}

fn shown_objects(
    alloc: Global,
    state: &State,
    user: &Text,
    filter: &PropertyFilter,
    succinct: bool,
    objects: &[&Object],
) -> Result<ShownObjects, AllocError>
    ensures { IfOk result (λ all. all
        ≡ map (shown_object state.now user.now filter.now succinct) (map pointee objects.now)) }
{
    let mut all = Items::new(alloc);
    for x in objects {
        all.push(shown_object(alloc, state, user, filter, succinct, x)?)?;
    }
    Ok(all)
}

/// The objects as the caller sees them, in their order; or how many they are, where they are more than 5000.
pub fn objects_reply(
    alloc: Global,
    state: &State,
    user: &Text,
    filter: &PropertyFilter,
    succinct: bool,
    objects: &[&Object],
) -> Result<ObjectsReply, Fail>
    ensures { Meets (λ y. y) result (objects_reply state.now user.now filter.now succinct (map pointee objects.now)) }
{
    let count = objects.len() as u64;
    if is_too_long(count) {
        return Err(Fail::Refused(Cause::TooMany(count)));
    }
    let objects = shown_objects(alloc, state, user, filter, succinct, objects)?;
    Ok(ObjectsReply { objects })
}
