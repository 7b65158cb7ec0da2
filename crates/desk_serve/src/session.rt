//! One session of a link, on the thread that calls it.
ghost use Rattle.std.specs.Prelude.{◌≡◌, None};
ghost use Rattle.desk_serve.specs.Sessions.{terms};
ghost use Rattle.desk_serve.specs.Keeping.{IsFresh, IsOver};

use cm_base::user::Users;
use desk_lock::{Lock, LockDesk, Pass};
use desk_model::{Keeper, Machine};
use outside::{Clock, Gate, Link};
use std::alloc::Global;
use std::sync::Wait;
use talk::{End, Served, talk};

/// What a session gives back.
#[derive(Drop)]
pub(crate) struct Seat<M: Machine, L, K: Keeper<M>> {
    pub(crate) pass: Pass<M, K>,
    pub(crate) link: L,
    pub(crate) outcome: End,
}

// Serves a link with this pass to the end of its session, and closes it.
fn hold<'a, M: Served, L: Link, C: Clock + Drop, K: Keeper<M>, G: Gate, R: Wait>(
    rt: &'a R,
    alloc: Global,
    lock: &'a Lock<M, C, K>,
    users: &Users,
    gate: &G,
    pass: &mut Pass<M, K>,
    link: &mut L,
) -> End
    requires { IsFresh M.next lock.now pass.old }
    ensures { IsOver (terms M.next M.answer M.number M.call M.user M.least M.closes K.faults L.Source.told L.Sink.told
        users.now None) lock.now pass.old link.old pass.new link.new result }
{
    let mut desk: LockDesk<'a, R, M, C, K> = LockDesk::new(lock);
    let mut leave = rt;
    lock.takes_back();
    let end = talk(alloc, &mut leave, &mut desk, pass, users, link, gate);
    link.finish();
    end
}

/// Serves a link with this pass to the end of its session, and gives both back.
pub(crate) fn seated<'a, M: Served, L: Link, C: Clock + Drop, K: Keeper<M>, G: Gate, R: Wait>(
    rt: &'a R,
    alloc: Global,
    lock: &'a Lock<M, C, K>,
    users: &Users,
    gate: &G,
    pass: Pass<M, K>,
    link: L,
) -> Seat<M, L, K>
    requires { IsFresh M.next lock.now pass }
    ensures { IsOver (terms M.next M.answer M.number M.call M.user M.least M.closes K.faults L.Source.told L.Sink.told
        users.now None) lock.now pass link result.pass result.link result.outcome }
{
    let mut pass = pass;
    let mut link = link;
    let outcome = hold(rt, alloc, lock, users, gate, &mut pass, &mut link);
    Seat {
        pass,
        link,
        outcome,
    }
}
