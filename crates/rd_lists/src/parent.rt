//! The parent of a folder (CMIS 1.1, section 2.2.3.4).
ghost use Rattle.std.specs.Prelude.{◌≡◌, IfOk};
ghost use Rattle.std.specs.Option.{option_copied};
ghost use Rattle.cm_base.specs.Judged.{Meets};
ghost use Rattle.rd_lists.specs.ReadParent.{answer_parent, answer_parent_of, parent_of, parent_reply};

use call_parts::readings::{PropertyFilter, ReadParent};
use call_parts::replies::ObjectReply;
use cm_base::cause::Cause;
use cm_base::fail::Fail;
use cm_base::object::Object;
use cm_base::text::Text;
use cm_see::address::addressed;
use cm_see::read::read_at;
use cm_see::shown::shown_object;
use cm_state::state::State;
use cm_types::definition::BaseType;
use std::alloc::{AllocError, Global};

fn parent_of<'a>(state: &'a State, user: &Text, x: &Object) -> Option<&'a Object>
    ensures { option_copied result ≡ parent_of state.now user.now x.now }
{
    match state.parent(x.id) {
        Some(above) => read_at(state, user, above),
        None => None,
    }
}

fn parent_reply(
    alloc: Global,
    state: &State,
    user: &Text,
    succinct: bool,
    folder: &Object,
) -> Result<ObjectReply, AllocError>
    ensures { IfOk result (λ reply. reply ≡ parent_reply state.now user.now succinct folder.now) }
{
    let filter = PropertyFilter::All;
    let object = shown_object(alloc, state, user, &filter, succinct, folder)?;
    Ok(ObjectReply {
        object,
        created: false,
    })
}

fn answer_parent_of(
    alloc: Global,
    state: &State,
    user: &Text,
    succinct: bool,
    x: &Object,
) -> Result<ObjectReply, Fail>
    ensures { Meets (λ y. y) result (answer_parent_of state.now user.now succinct x.now) }
{
    if !state.is_a(BaseType::Folder, x) {
        return Err(Fail::Refused(Cause::WrongKind));
    }
    match parent_of(state, user, x) {
        Some(folder) => {
            let reply = parent_reply(alloc, state, user, succinct, folder)?;
            Ok(reply)
        }
        None => Err(Fail::Refused(Cause::RootParent)),
    }
}

/// The parent of the folder, with all its properties. What the caller doesn't read is not found; what is no folder is of the wrong
/// kind; the root has no parent.
pub fn parent(
    alloc: Global,
    state: &State,
    user: &Text,
    q: &ReadParent,
) -> Result<ObjectReply, Fail>
    ensures { Meets (λ y. y) result (answer_parent state.now user.now q.now) }
{
    match addressed(state, user, &q.place) {
        Some(x) => answer_parent_of(alloc, state, user, q.succinct, x),
        None => Err(Fail::Refused(Cause::NotFound)),
    }
}
