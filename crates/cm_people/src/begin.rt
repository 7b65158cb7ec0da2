//! How the repository of a journal begins.
ghost use Rattle.std.specs.Prelude.{◌≡◌, map, IfOk};
ghost use Rattle.cm_people.specs.Begun.{begun, user_named};

use cm_base::copies::Copies;
use cm_base::items::Items;
use cm_base::limits::{Limits, Start};
use cm_base::number::Moment;
use cm_base::text::Text;
use cm_base::user::{User, Users};
use cm_opening::open::open;
use cm_state::state::State;
use journal_people::People;
use std::alloc::{AllocError, Global};

fn user_named(alloc: Global, name: &Text) -> Result<User, AllocError>
    ensures { IfOk result (λ u. u ≡ user_named name.now) }
{
    Ok(User {
        name: name.copied(alloc)?,
        secret: Text::empty(alloc),
    })
}

fn users_named(alloc: Global, names: &[Text]) -> Result<Users, AllocError>
    ensures { IfOk result (λ users. users ≡ map user_named names.now) }
{
    let mut users = Items::new(alloc);
    for name in names {
        users.push(user_named(alloc, name)?)?;
    }
    Ok(users)
}

/// The repository of these people with the base types and the root, which the administrator made at this moment. It has the greatest limits, since
/// a journal's entries don't depend on those of a run.
#[tactic(auto, using(crate::proofs::Named::have_groups))]
pub fn begun(alloc: Global, moment: Moment, people: &People) -> Result<State, AllocError>
    ensures { IfOk result (λ s. s ≡ begun moment people.now) }
{
    let users = users_named(alloc, people.names().as_slice())?;
    let groups = people.groups().copied(alloc)?;
    let start = Start {
        moment,
        first_step: 0,
        limits: Limits::greatest(),
    };
    let state = open(alloc, &users, groups, start)?;
    Ok(state)
}
