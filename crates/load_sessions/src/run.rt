//! One session of a load.
ghost use Rattle.std.specs.Prelude.{◌≡◌, IfOk, true};
ghost use Rattle.desk_model.specs.Histories.{state_of};
ghost use Rattle.talk.specs.Alone.{IsFinal};
ghost use Rattle.talk.specs.Served.{wire_of};
ghost use Rattle.load_sessions.specs.Sessions.{Leads};

use cm_base::user::Users;
use desk_model::Snapshot;
use load_requests::requests;
use outside::{ListClock, MemLink, OpenGate};
use std::alloc::{AllocError, Global};
use talk::{AloneEnd, End, Served, run_alone};

// Whether a session ended by itself.
fn is_final(end: End) -> bool
    ensures { result ≡ true → IsFinal end }
{
    match end {
        End::Ended | End::Bad(_) => true,
        End::ReadFault | End::WriteFault | End::Starved | End::Unkept => false,
    }
}

/// Runs the session with these requests over a state, with nobody beside it, and answers its last version. What it sends is dropped.
pub fn run_session<M: Served>(
    alloc: Global,
    opening: M::State,
    users: &Users,
    numbers: &[u64],
) -> Result<Snapshot<M>, AllocError>
    ensures { IfOk result (λ last. Leads
        (record {
          next = M.next;
          answer = M.answer;
          number = M.number;
          call = M.call;
          wire = wire_of M.user M.least M.closes;
        }) users.now numbers.now opening (state_of M.next last)) }
{
    let input = requests(alloc, numbers)?;
    let clock = ListClock::new(alloc, numbers)?;
    let mut link = MemLink::new(alloc, &input, &[], &[])?;
    let ended = run_alone::<M, ListClock, MemLink, OpenGate>(
        alloc, opening, clock, users, &mut link, &OpenGate,
    )?;
    let AloneEnd {
        end,
        last,
        clock: _clock,
    } = ended;
    // (a link in memory fails only where it wants memory)
    if is_final(end) {
        Ok(last)
    } else {
        Err(AllocError)
    }
}
