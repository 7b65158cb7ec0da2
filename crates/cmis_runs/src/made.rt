//! The repository that the requests of a load make.
ghost use Rattle.std.specs.Prelude.{◌≡◌, ◌≤◌, IfOk};
ghost use Rattle.load_sessions.specs.Sessions.{Leads};
ghost use Rattle.cmis_program.specs.Kinds.{kind_of};
ghost use Rattle.cmis_runs.specs.Loads.{beginning, IsMade, the_users};

use crate::start::open_at;
use cm_base::number::Moment;
use cm_base::text::Text;
use cm_base::user::{Groups, User, Users};
use cm_state::state::State;
use cmis_program::Program;
use load_sessions::{numbers_in, run_session, sessions_of};
use std::alloc::{AllocError, Global};

/// The one user.
pub(crate) fn users(alloc: Global) -> Result<Users, AllocError>
    ensures { IfOk result (λ all. all ≡ the_users) }
{
    let name = Text::from_str(alloc, "admin")?;
    let secret = Text::from_str(alloc, "pw")?;
    let mut all = Users::new(alloc);
    all.push(User { name, secret })?;
    Ok(all)
}

/// The repository with the root alone.
pub(crate) fn beginning(alloc: Global, users: &Users) -> Result<State, AllocError>
    requires { users.now ≡ the_users }
    ensures { IfOk result (λ state. state ≡ beginning) }
{
    let state = open_at(alloc, users, Groups::new(alloc), Moment(0), 0)?;
    Ok(state)
}

// The state after one session more.
fn after<P: Program>(
    alloc: Global,
    state: State,
    users: &Users,
    numbers: &[u64],
) -> Result<State, AllocError>
    ensures { IfOk result (λ after. Leads
        (kind_of P.Face.next P.Face.answer P.Face.number P.Face.call P.Face.user P.Face.least P.Face.closes)
        users.now numbers.now state after) }
{
    let last = run_session::<P::Face>(alloc, state, users, numbers)?;
    let after = last.state().copy(alloc)?;
    Ok(after)
}

/// The state after the sessions of so many requests.
#[tactic(auto, using(crate::proofs::Making::one_more, crate::proofs::Making::all_made))]
pub(crate) fn made<P: Program>(alloc: Global, n: u64) -> Result<State, AllocError>
    ensures { IfOk result (IsMade
        (kind_of P.Face.next P.Face.answer P.Face.number P.Face.call P.Face.user P.Face.least P.Face.closes)
        n) }
{
    let users = users(alloc)?;
    let mut state = beginning(alloc, &users)?;
    for k in 0..sessions_of(n) {
        let numbers = numbers_in(alloc, n, k)?;
        state = after::<P>(alloc, state, &users, &numbers)?;
    }
    Ok(state)
}
