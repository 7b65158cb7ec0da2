//! How the repository of a journal goes on with other people.
ghost use Rattle.std.specs.Prelude.{◌≡◌, IfOk};
ghost use Rattle.std.specs.Arc.{arc_value};
ghost use Rattle.cmis_spec.specs.Well.{HasGroups, IsWellFormed};
ghost use Rattle.cm_people.specs.Adopted.{adopted};

use crate::events::log_for;
use cm_base::copies::Copies;
use cm_base::text::Texts;
use cm_base::user::Groups;
use cm_log::log::Log;
use cm_state::parts::Parts;
use cm_state::people::People as Principals;
use cm_state::state::State;
use journal_people::People;
use std::alloc::{AllocError, Global};
use std::sync::Arc;

// Users and their groups, as a state keeps them.
#[tactic(auto, using(crate::proofs::Keeping::members_differ))]
fn shared(alloc: Global, users: Texts, groups: Groups) -> Result<Arc<Principals>, AllocError>
    requires well { HasGroups users groups }
    ensures { IfOk result (λ p. arc_value p ≡ record { users = users; groups = groups }) }
{
    let principals = Principals::new(alloc, users, groups)?;
    let principals = Arc::new(alloc, principals)?;
    Ok(principals)
}

fn principals_of(alloc: Global, people: &People) -> Result<Arc<Principals>, AllocError>
    ensures { IfOk result (λ p. arc_value p ≡ record { users = people.now.names; groups = people.now.groups }) }
{
    let names = people.names().copied(alloc)?;
    let groups = people.groups().copied(alloc)?;
    shared(alloc, names, groups)
}

fn with_principals(parts: Parts, people: Arc<Principals>) -> Parts
    ensures { result ≡ record parts { users = (arc_value people).users; groups = (arc_value people).groups } }
{
    Parts { people, ..parts }
}

fn with_log(parts: Parts, log: Log) -> Parts
    ensures { result ≡ record parts { log = log } }
{
    let lists = parts.lists.with_log(log);
    Parts { lists, ..parts }
}

fn with_others(parts: Parts, people: Arc<Principals>, log: Log) -> Parts
    ensures { result ≡ record parts {
      users = (arc_value people).users;
      groups = (arc_value people).groups;
      log = log;
    } }
{
    let noted = with_log(parts, log);
    with_principals(noted, people)
}

// The state with these people, which the principals are, and this log.
fn sealed_with(parts: Parts, people: &People, principals: Arc<Principals>, log: Log) -> State
    requires well { IsWellFormed parts }
    requires groups { HasGroups people.now.names people.now.groups }
    requires are { arc_value principals ≡ record { users = people.now.names; groups = people.now.groups } }
    ensures { result ≡ record parts { users = people.now.names; groups = people.now.groups; log = log } }
{
    let _people = people;
    let others = with_others(parts, principals, log);
    others.seal()
}

/// The repository with these users and groups from here on. Who saw the events of an object that is gone sees them still.
pub fn adopted(alloc: Global, state: &State, people: &People) -> Result<State, AllocError>
    ensures { IfOk result (λ s. s ≡ adopted state.now people.now) }
{
    let _step = state.step();
    let names = people.names();
    let log = log_for(
        alloc,
        state.users().as_slice(),
        names.as_slice(),
        state.log(),
    )?;
    let principals = principals_of(alloc, people)?;
    let parts = state.parts().share(alloc)?;
    Ok(sealed_with(parts, people, principals, log))
}
