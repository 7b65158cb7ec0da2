//! The folders of an object (CMIS 1.1, section 2.2.3.5).
ghost use Rattle.std.specs.Prelude.{◌≡◌, IfOk, map};
ghost use Rattle.cm_map.specs.Parts.{pointee};
ghost use Rattle.cm_base.specs.Judged.{Meets};
ghost use Rattle.rd_include.specs.ShowParents.{answer_show_parents, answer_show_parents_of, included_parent, included_parents};

use cm_base::cause::Cause;
use cm_base::copies::Copies;
use cm_base::fail::Fail;
use cm_base::items::Items;
use cm_base::object::Object;
use cm_base::text::Text;
use cm_include::included::{View, included_object};
use cm_see::address::addressed;
use cm_state::state::State;
use include_parts::readings::ShowParents;
use include_parts::replies::{IncludedMember, IncludedMembers, IncludedParentsReply};
use rd_lists::folders::{folders_of, is_fileable, segment_of};
use rd_lists::listed::is_too_long;
use std::alloc::{AllocError, Global};

fn included_parent(
    alloc: Global,
    state: &State,
    user: &Text,
    q: &ShowParents,
    segment: &Option<Text>,
    folder: &Object,
) -> Result<IncludedMember, AllocError>
    ensures { IfOk result (λ m. m ≡ included_parent state.now user.now q.now segment.now folder.now) }
{
    let view = View {
        state,
        user,
        filter: &q.parents.filter,
        succinct: q.parents.succinct,
        includes: &q.includes,
    };
    let object = included_object(alloc, view, folder)?;
    let segment = segment.copied(alloc)?;
    Ok(IncludedMember { object, segment })
}

fn each_parent(
    alloc: Global,
    state: &State,
    user: &Text,
    q: &ShowParents,
    segment: &Option<Text>,
    folders: &[&Object],
) -> Result<IncludedMembers, AllocError>
    ensures { IfOk result (λ all. all
        ≡ map (included_parent state.now user.now q.now segment.now) (map pointee folders.now)) }
{
    let mut all = Items::new(alloc);
    for folder in folders {
        all.push(included_parent(alloc, state, user, q, segment, folder)?)?;
    }
    Ok(all)
}

fn included_parents(
    alloc: Global,
    state: &State,
    user: &Text,
    q: &ShowParents,
    segment: &Option<Text>,
    folders: &[&Object],
) -> Result<IncludedParentsReply, Fail>
    ensures { Meets (λ y. y) result (included_parents state.now user.now q.now segment.now (map pointee folders.now)) }
{
    let count = folders.len() as u64;
    if is_too_long(count) {
        return Err(Fail::Refused(Cause::TooMany(count)));
    }
    let parents = each_parent(alloc, state, user, q, segment, folders)?;
    Ok(IncludedParentsReply { parents })
}

fn parents_of(
    alloc: Global,
    state: &State,
    user: &Text,
    q: &ShowParents,
    x: &Object,
) -> Result<IncludedParentsReply, Fail>
    ensures { Meets (λ y. y) result (answer_show_parents_of state.now user.now q.now x.now) }
{
    if !is_fileable(state, x) {
        return Err(Fail::Refused(Cause::NotFileable));
    }
    let segment = segment_of(alloc, state, q.parents.segments, x)?;
    let folders = folders_of(alloc, state, user, x)?;
    included_parents(alloc, state, user, q, &segment, &folders)
}

/// The folders in which the object stands, those that the caller reads, in the order of their numbers, with what is asked for beside
/// their properties: a document stands where its series is filed, a working copy and the root stand in none. Each is shown with the
/// name that the object has in it, where that is asked for. What the caller doesn't read is not found; an object whose type is not
/// fileable has no folders; more than 5000 are too many.
pub fn show_parents(
    alloc: Global,
    state: &State,
    user: &Text,
    q: &ShowParents,
) -> Result<IncludedParentsReply, Fail>
    ensures { Meets (λ y. y) result (answer_show_parents state.now user.now q.now) }
{
    match addressed(state, user, &q.parents.place) {
        Some(x) => parents_of(alloc, state, user, q, x),
        None => Err(Fail::Refused(Cause::NotFound)),
    }
}
