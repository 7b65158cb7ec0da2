//! What the calling thread keeps of the sessions that run and of the links that were served.
ghost use Rattle.std.specs.Prelude.{◌≡◌, ◌⊎◌, ◌+◌, ◌<◌, ◌≤◌, ℕ, List, [], ◌∷◌, ◌++◌, length, vec_len, vec_capacity, IfOk, OnErr, MatchOption, true, All};
ghost use Rattle.desk_lock.specs.Words.{IsOf};
ghost use Rattle.desk_serve.specs.Sessions.{terms};
ghost use Rattle.desk_serve.specs.Keeping.{IsFresh, IsHeld, Keeps, KeepsWith, IsStopped, IsOverAll, Runs, held_by, and_at, most_workers};

use crate::ended::{Ended, HostEnd};
use crate::marks::Marks;
use crate::running::Running;
use crate::session::Seat;
use cm_base::user::Users;
use desk_lock::{Lock, Pass};
use desk_model::{Keeper, Machine};
use outside::{Clock, Host, Link};
use std::snapshot::Snapshot;
use std::sync::Wait;
use std::thread::Threads;
use talk::Served;

/// A session that runs: its thread, the row of its mark, the place of its link, and how much its pass had seen.
#[derive(Drop)]
pub(crate) struct Row<M: Served, L: Link + Drop, C: Clock, K: Keeper<M>> {
    pub(crate) handle: Running<M, L, C, K>,
    pub(crate) row: usize,
    pub(crate) place: u64,
    pub(crate) before: u64,
}

/// What the calling thread keeps: its pass, the sessions that run, and the links that were served.
#[derive(Drop)]
pub(crate) struct Hall<M: Served, L: Link + Drop, C: Clock, K: Keeper<M>> {
    pub(crate) pass: Pass<M, K>,
    pub(crate) running: Vec<Row<M, L, C, K>>,
    pub(crate) ended: Vec<Ended<L>>,
}

/// Takes in the pass of a session that is over, and notes its link.
pub(crate) fn note<M: Served, H: Host, C: Clock + Drop, K: Keeper<M>>(
    lock: &Lock<M, C, K>,
    users: &Users,
    all: &Snapshot<H>,
    hall: &mut Hall<M, H::Link, C, K>,
    place: u64,
    before: u64,
    seat: Seat<M, H::Link, K>,
)
    requires is_of { IsOf M.next lock.now hall.old.pass }
    requires held { IsHeld
        (terms M.next M.answer M.number M.call M.user M.least M.closes K.faults H.Link.Source.told H.Link.Sink.told
        users.now (H.left all.now.value)) lock.now place before seat.pass seat.link seat.outcome }
    requires room { vec_len hall.old.ended < vec_capacity hall.old.ended }
    ensures keeps { (held : ℕ → ℕ) (running spare n : ℕ)
        → Keeps
        (terms M.next M.answer M.number M.call M.user M.least M.closes K.faults H.Link.Source.told H.Link.Sink.told
        users.now (H.left all.now.value)) lock.now hall.old.pass hall.old.ended.items (and_at place held)
        (running + 1) spare n
        → Keeps
        (terms M.next M.answer M.number M.call M.user M.least M.closes K.faults H.Link.Source.told H.Link.Sink.told
        users.now (H.left all.now.value)) lock.now hall.new.pass hall.new.ended.items held running spare n }
    ensures running { hall.new.running ≡ hall.old.running }
    ensures room { (vec_len hall.new.ended ≡ vec_len hall.old.ended + 1)
        × (vec_capacity hall.new.ended ≡ vec_capacity hall.old.ended) }
{
    let _ = users;
    let _ = all;
    let Seat {
        pass,
        link,
        outcome,
    } = seat;
    let tally = lock.retire(&mut hall.pass, pass);
    hall.ended.push_reserved(Ended {
        place,
        number: tally.number,
        before,
        after: tally.seen,
        link,
        outcome,
    });
}

// Joins a session that was taken off the list, and notes it.
#[tactic(auto, using(crate::proofs::Noting::held_of))]
fn settle<M: Served, H: Host, C: Clock + Drop, K: Keeper<M>, R: Threads>(
    rt: &R,
    lock: &Lock<M, C, K>,
    users: &Users,
    all: &Snapshot<H>,
    hall: &mut Hall<M, H::Link, C, K>,
    row: Row<M, H::Link, C, K>,
)
    requires is_of { IsOf M.next lock.now hall.old.pass }
    requires runs { Runs (terms M.next M.answer M.number M.call M.user M.least M.closes K.faults H.Link.Source.told
        H.Link.Sink.told users.now (H.left all.now.value)) lock.now row.handle.promise.lock.value
        row.handle.promise.users.value row.handle.promise.pass.value row.handle.promise.link.value row.place
        row.before }
    requires room { vec_len hall.old.ended < vec_capacity hall.old.ended }
    ensures keeps { (held : ℕ → ℕ) (running spare n : ℕ)
        → Keeps
        (terms M.next M.answer M.number M.call M.user M.least M.closes K.faults H.Link.Source.told H.Link.Sink.told
        users.now (H.left all.now.value)) lock.now hall.old.pass hall.old.ended.items (and_at row.place held)
        (running + 1) spare n
        → Keeps
        (terms M.next M.answer M.number M.call M.user M.least M.closes K.faults H.Link.Source.told H.Link.Sink.told
        users.now (H.left all.now.value)) lock.now hall.new.pass hall.new.ended.items held running spare n }
    ensures running { hall.new.running ≡ hall.old.running }
    ensures room { (vec_len hall.new.ended ≡ vec_len hall.old.ended + 1)
        × (vec_capacity hall.new.ended ≡ vec_capacity hall.old.ended) }
{
    let Row {
        handle,
        row: _,
        place,
        before,
    } = row;
    let seat = handle.join(rt);
    note(lock, users, all, hall, place, before, seat);
}

// Waits for the mark of a session that runs, and answers where it stands in the list.
fn find<M: Served, L: Link + Drop, C: Clock, K: Keeper<M>, R: Wait>(
    rt: &R,
    marks: &Marks,
    running: &Vec<Row<M, L, C, K>>,
) -> usize
    ensures { result < vec_len running.now }
{
    for _ in rt.forever() {
        let row = marks.take(rt);
        for at in 0..running.len() {
            if running[at].row == row {
                return at;
            }
        }
    }
    unreachable!()
}

/// Waits for a session to be over, and notes it.
pub(crate) fn join_one<M: Served, H: Host, C: Clock + Drop, K: Keeper<M>, R: Threads + Wait>(
    rt: &R,
    lock: &Lock<M, C, K>,
    users: &Users,
    all: &Snapshot<H>,
    marks: &Marks,
    hall: &mut Hall<M, H::Link, C, K>,
    place: u64,
)
    requires keeps { Keeps
        (terms M.next M.answer M.number M.call M.user M.least M.closes K.faults H.Link.Source.told H.Link.Sink.told
        users.now (H.left all.now.value)) lock.now hall.old.pass hall.old.ended.items
        (held_by (λ r. r.place) hall.old.running.items) (vec_len hall.old.running) 0 place }
    requires rows { All (λ r. Runs (terms M.next M.answer M.number M.call M.user M.least M.closes K.faults
        H.Link.Source.told H.Link.Sink.told users.now (H.left all.now.value)) lock.now r.handle.promise.lock.value
        r.handle.promise.users.value r.handle.promise.pass.value r.handle.promise.link.value r.place r.before)
        hall.old.running.items }
    requires room { vec_len hall.old.ended + vec_len hall.old.running ≤ vec_capacity hall.old.ended }
    ensures keeps { Keeps
        (terms M.next M.answer M.number M.call M.user M.least M.closes K.faults H.Link.Source.told H.Link.Sink.told
        users.now (H.left all.now.value)) lock.now hall.new.pass hall.new.ended.items
        (held_by (λ r. r.place) hall.new.running.items) (vec_len hall.new.running) 0 place }
    ensures rows { All (λ r. Runs (terms M.next M.answer M.number M.call M.user M.least M.closes K.faults
        H.Link.Source.told H.Link.Sink.told users.now (H.left all.now.value)) lock.now r.handle.promise.lock.value
        r.handle.promise.users.value r.handle.promise.pass.value r.handle.promise.link.value r.place r.before)
        hall.new.running.items }
    ensures room { vec_len hall.new.ended + vec_len hall.new.running ≤ vec_capacity hall.new.ended }
    ensures fewer { vec_len hall.new.running + 1 ≡ vec_len hall.old.running }
{
    let _ = place;
    let at = find(rt, marks, &hall.running);
    let row = hall.running.swap_remove(at);
    settle(rt, lock, users, all, hall, row);
}

/// Joins all that run.
pub(crate) fn join_all<M: Served, H: Host, C: Clock + Drop, K: Keeper<M>, R: Threads>(
    rt: &R,
    lock: &Lock<M, C, K>,
    users: &Users,
    all: &Snapshot<H>,
    host: &H,
    hall: &mut Hall<M, H::Link, C, K>,
    spare: &Option<Pass<M, K>>,
    end: &HostEnd,
)
    requires stopped { IsStopped
        (terms M.next M.answer M.number M.call M.user M.least M.closes K.faults H.Link.Source.told H.Link.Sink.told
        users.now (H.left all.now.value)) lock.now hall.old.pass hall.old.ended.items
        (held_by (λ r. r.place) hall.old.running.items) (vec_len hall.old.running) (H.told all.now.value)
        (H.told host.now) (H.left host.now) spare.now end.now }
    requires rows { All (λ r. Runs (terms M.next M.answer M.number M.call M.user M.least M.closes K.faults
        H.Link.Source.told H.Link.Sink.told users.now (H.left all.now.value)) lock.now r.handle.promise.lock.value
        r.handle.promise.users.value r.handle.promise.pass.value r.handle.promise.link.value r.place r.before)
        hall.old.running.items }
    requires room { vec_len hall.old.ended + vec_len hall.old.running ≤ vec_capacity hall.old.ended }
    ensures stopped { IsStopped
        (terms M.next M.answer M.number M.call M.user M.least M.closes K.faults H.Link.Source.told H.Link.Sink.told
        users.now (H.left all.now.value)) lock.now hall.new.pass hall.new.ended.items
        (held_by (λ r. r.place) hall.new.running.items) (vec_len hall.new.running) (H.told all.now.value)
        (H.told host.now) (H.left host.now) spare.now end.now }
    ensures none_run { vec_len hall.new.running ≡ 0 }
{
    let _ = host;
    let _ = spare;
    let _ = end;
    while let Some(row) = hall.running.pop() {
        settle(rt, lock, users, all, hall, row);
    }
}

/// Takes in a pass that got no link.
pub(crate) fn take_in_spare<M: Served, H: Host, C: Clock + Drop, K: Keeper<M>>(
    lock: &Lock<M, C, K>,
    users: &Users,
    all: &Snapshot<H>,
    host: &H,
    hall: &mut Hall<M, H::Link, C, K>,
    spare: Option<Pass<M, K>>,
    end: HostEnd,
)
    requires stopped { IsStopped
        (terms M.next M.answer M.number M.call M.user M.least M.closes K.faults H.Link.Source.told H.Link.Sink.told
        users.now (H.left all.now.value)) lock.now hall.old.pass hall.old.ended.items
        (held_by (λ r. r.place) hall.old.running.items) (vec_len hall.old.running) (H.told all.now.value)
        (H.told host.now) (H.left host.now) spare end }
    requires none_run { vec_len hall.old.running ≡ 0 }
    ensures { IsOverAll
        (terms M.next M.answer M.number M.call M.user M.least M.closes K.faults H.Link.Source.told H.Link.Sink.told
        users.now (H.left all.now.value)) lock.now hall.new.pass hall.new.ended.items (H.told all.now.value) (H.told
        host.now) (H.left host.now) end }
{
    let _ = users;
    let _ = all;
    let _ = host;
    let _ = end;
    match spare {
        Some(pass) => {
            lock.retire(&mut hall.pass, pass);
        }
        None => {}
    }
}

/// A row whose mark no session has that runs.
pub(crate) fn free_row<M: Served, L: Link + Drop, C: Clock, K: Keeper<M>>(
    running: &Vec<Row<M, L, C, K>>,
) -> usize {
    for row in 0..64 {
        if !running.iter().any(|r| r.row == row) {
            return row;
        }
    }
    64
}

/// Makes room for one session more. False: memory was wanted.
#[tactic(auto, unfolding(crate::specs::Keeping::most_workers))]
pub(crate) fn reserve<M: Served, L: Link + Drop, C: Clock, K: Keeper<M>>(
    hall: &mut Hall<M, L, C, K>,
) -> bool
    requires room { vec_len hall.old.ended + vec_len hall.old.running ≤ vec_capacity hall.old.ended }
    requires few { vec_len hall.old.running < most_workers }
    ensures pass { hall.new.pass ≡ hall.old.pass }
    ensures ended { hall.new.ended.items ≡ hall.old.ended.items }
    ensures running { hall.new.running.items ≡ hall.old.running.items }
    ensures room { vec_len hall.new.ended + vec_len hall.new.running ≤ vec_capacity hall.new.ended }
    ensures more { result ≡ true
        → (vec_len hall.new.ended + vec_len hall.new.running + 1 ≤ vec_capacity hall.new.ended)
        × (vec_len hall.new.running < vec_capacity hall.new.running) }
{
    let count = hall.running.len();
    if hall.ended.reserve(count + 1).is_err() {
        return false;
    }
    hall.running.reserve(1).is_ok()
}
