//! Sessions on threads of their own.
ghost use Rattle.std.specs.Prelude.{◌≡◌, IfOk, IfErr, None};
ghost use Rattle.desk_serve.specs.Sessions.{terms};
ghost use Rattle.desk_serve.specs.Keeping.{IsFresh, IsOver};

use crate::marks::Marks;
use crate::session::{Seat, seated};
use crate::task::{Task, started};
use cm_base::user::Users;
use desk_lock::{Lock, Pass};
use desk_model::{Keeper, Machine};
use outside::{Clock, Gate, Link};
use std::alloc::Global;
use std::snapshot::Snapshot;
use std::sync::Wait;
use std::thread::{Promise, PromisedHandle, Scope, Threads};
use talk::Served;

/// What a session's thread gives back is told by what it began with.
#[derive(Drop)]
pub(crate) struct Kept<M: Machine, L, C: Clock, K: Keeper<M>> {
    pub(crate) lock: Snapshot<Lock<M, C, K>>,
    pub(crate) users: Snapshot<Users>,
    pub(crate) pass: Snapshot<Pass<M, K>>,
    pub(crate) link: Snapshot<L>,
}

impl<M: Served, L: Link, C: Clock, K: Keeper<M>> Promise<Seat<M, L, K>> for Kept<M, L, C, K> {
    ghost kept_by = { λ p r. IsOver (terms M.next M.answer M.number M.call M.user M.least M.closes K.faults
        L.Source.told L.Sink.told p.users.value None) p.lock.value p.pass.value p.link.value r.pass r.link r.outcome };
}

/// A session that is to be held, and the mark that its thread sets in the end.
#[derive(Drop)]
struct Session<'s, M: Machine, L, C: Clock, K: Keeper<M>, G, R> {
    rt: &'s R,
    alloc: Global,
    lock: &'s Lock<M, C, K>,
    users: &'s Users,
    gate: &'s G,
    marks: &'s Marks,
    row: usize,
    pass: Pass<M, K>,
    link: L,
}

impl<'s, M: Served, L: Link, C: Clock + Drop, K: Keeper<M>, G: Gate, R: Wait> Task<Seat<M, L, K>>
    for Session<'s, M, L, C, K, G, R> {
    ghost begins = { λ s. IsFresh M.next s.lock.now s.pass };

    ghost makes = { λ s r. IsOver (terms M.next M.answer M.number M.call M.user M.least M.closes K.faults L.Source.told
        L.Sink.told s.users.now None) s.lock.now s.pass s.link r.pass r.link r.outcome };

    fn run(self) -> Seat<M, L, K> {
        let Session {
            rt,
            alloc,
            lock,
            users,
            gate,
            marks,
            row,
            pass,
            link,
        } = self;
        let seat = seated(rt, alloc, lock, users, gate, pass, link);
        marks.set(rt, row);
        seat
    }
}

/// A session that runs.
pub(crate) type Running<M, L, C, K> = PromisedHandle<Seat<M, L, K>, Kept<M, L, C, K>>;

/// Starts a session on a thread of its own, which sets the mark of its row in the end; where no thread can be made, runs it.
pub(crate) fn start<
    's,
    E,
    M: Served + 's,
    L: Link + Drop + Send + 's,
    C: Clock + Drop + Send + 's,
    K: Keeper<M> + Send + 's,
    G: Gate + Sync + 's,
    R: Threads + Wait + Sync + 's,
>(
    scope: &Scope<'s, E>,
    rt: &'s R,
    alloc: Global,
    lock: &'s Lock<M, C, K>,
    users: &'s Users,
    gate: &'s G,
    marks: &'s Marks,
    row: usize,
    pass: Pass<M, K>,
    link: L,
) -> Result<Running<M, L, C, K>, Seat<M, L, K>>
where
    M: Send + Sync,
    M::State: Send + Sync,
    M::Call: Send + Sync,
    M::Question: Send,
    requires { IsFresh M.next lock.now pass }
    ensures running { IfOk result (λ r. (r.promise.lock.value ≡ lock.now) × (r.promise.users.value ≡ users.now)
        × (r.promise.pass.value ≡ pass) × (r.promise.link.value ≡ link)) }
    ensures done { IfErr result (λ r. IsOver
        (terms M.next M.answer M.number M.call M.user M.least M.closes K.faults L.Source.told L.Sink.told users.now
        None) lock.now pass link r.pass r.link r.outcome) }
{
    let promise: Kept<M, L, C, K> = Kept {
        lock: Snapshot::of(lock),
        users: Snapshot::of(users),
        pass: Snapshot::of(&pass),
        link: Snapshot::of(&link),
    };
    let session = Session {
        rt,
        alloc,
        lock,
        users,
        gate,
        marks,
        row,
        pass,
        link,
    };
    started::<E, Seat<M, L, K>, Session<'s, M, L, C, K, G, R>, Kept<M, L, C, K>>(
        scope, promise, session,
    )
}
