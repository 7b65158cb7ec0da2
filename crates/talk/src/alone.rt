//! A session with nobody beside it.
ghost use Rattle.std.specs.Prelude.{◌≡◌, IfOk, OnErr};
ghost use Rattle.talk.specs.Served.{wire_of};
ghost use Rattle.talk.specs.Ran.{RunAlone};

use crate::end::End;
use crate::served::Served;
use crate::session::talk;
use cm_base::user::Users;
use desk_model::{Machine, OneDesk, Snapshot, Version};
use http_grammar::{
    fault_holds_its_head, first_is_kept, first_is_one, held_head_has_bytes, held_head_is_kept,
    held_head_is_one, request_lies_within, whole_request_holds_its_head,
};
use outside::{Clock, Gate, Link};
use std::alloc::{AllocError, Global};

/// What a session leaves that had nobody beside it: how it ended, the last version, and the clock.
#[derive(Drop)]
pub struct AloneEnd<M: Machine, C> {
    pub end: End,
    pub last: Snapshot<M>,
    pub clock: C,
}

/// Serves one session over an opening, with nobody beside it. Want of memory before the session begins touches nothing.
/// It takes no other word of the clock than the session does, and hands the clock back.
pub fn run_alone<M: Served, C: Clock + Drop, L: Link, G: Gate>(
    alloc: Global,
    opening: M::State,
    clock: C,
    users: &Users,
    link: &mut L,
    gate: &G,
) -> Result<AloneEnd<M, C>, AllocError>
    ensures ran { IfOk result (λ r. RunAlone
        (record {
          next = M.next;
          answer = M.answer;
          number = M.number;
          call = M.call;
          wire = wire_of M.user M.least M.closes;
        }) opening users.now (C.words clock)
        (L.Source.told link.old) (L.Sink.told link.old) (L.Source.told link.new)
        (L.Sink.told link.new) r.end r.last.journal (C.words r.clock)) }
    ensures opening { IfOk result (λ r. r.last.opening ≡ opening) }
    ensures clock { IfOk result (λ r. C.stands_for r.clock ≡ C.stands_for clock) }
    ensures stands_for { L.stands_for link.new ≡ L.stands_for link.old }
    ensures untouched { OnErr result ((L.Source.told link.new ≡ L.Source.told link.old)
        × (L.Sink.told link.new ≡ L.Sink.told link.old)) }
{
    first_is_one();
    first_is_kept();
    request_lies_within();
    held_head_is_one();
    held_head_is_kept();
    held_head_has_bytes();
    whole_request_holds_its_head();
    fault_holds_its_head();
    let version: Version<M> = Version::opening(alloc, opening)?;
    let mut desk = OneDesk::new(alloc, version, clock)?;
    let mut pass = desk.pass()?;
    let end = talk(alloc, &mut (), &mut desk, &mut pass, users, link, gate);
    let (last, clock) = desk.close();
    Ok(AloneEnd { end, last, clock })
}
