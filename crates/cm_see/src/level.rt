//! Levels.
ghost use Rattle.std.specs.Prelude.{◌≡◌, [], Some, None};
ghost use Rattle.cmis_spec.specs.Repository.{entry_of};
ghost use Rattle.cmis_spec.specs.Access.{is_administrator, granted, groups_of, aces_at, level_by_list, level_of_caller, lacks, is_at_least};

use cm_acl::level::{greater, is_at_least, level_of};
use cm_base::access::Level;
use cm_base::number::Oid;
use cm_base::object::Object;
use cm_base::text::Text;
use cm_state::look::entry_of;
use cm_state::open::ROOT;
use cm_state::state::State;

fn is_first(users: &[Text], user: &Text) -> bool
    ensures { result ≡ is_administrator users.now user.now }
{
    match users {
        [] => false,
        [first, ..] => first.is(user),
    }
}

/// Whether the caller is the administrator.
pub fn is_administrator(state: &State, user: &Text) -> bool
    ensures { result ≡ is_administrator state.now.users user.now }
{
    is_first(state.users().as_slice(), user)
}

fn granted(state: &State, user: &Text, n: Oid) -> Level
    ensures { result ≡ granted (aces_at state.now n) user.now (groups_of state.now user.now) }
{
    match state.access_list(n) {
        Some(list) => level_of(&list.aces, user, state.groups_of(user)),
        None => Level::None,
    }
}

/// The level by the access control list of an object that is no document, or of a series.
pub fn level_by_list(state: &State, user: &Text, n: Oid) -> Level
    ensures { result ≡ level_by_list state.now user.now n }
{
    if is_administrator(state, user) {
        return Level::All;
    }
    let level = granted(state, user, n);
    if n == ROOT {
        greater(Level::Read, level)
    } else {
        level
    }
}

/// The caller's level at the object. Takes no memory.
pub fn level(state: &State, user: &Text, x: &Object) -> Level
    ensures { result ≡ level_of_caller state.now user.now x.now }
{
    let list = level_by_list(state, user, entry_of(x));
    match state.owner_of(x) {
        None => list,
        Some(owner) => {
            if is_administrator(state, user) {
                Level::All
            } else if owner.is(user) && is_at_least(Level::Read, list) {
                Level::All
            } else {
                Level::None
            }
        }
    }
}

/// Whether the caller's level at the object is below the one that is needed.
pub fn lacks(state: &State, user: &Text, need: Level, x: &Object) -> bool
    ensures { result ≡ lacks state.now user.now need x.now }
{
    !is_at_least(need, level(state, user, x))
}
