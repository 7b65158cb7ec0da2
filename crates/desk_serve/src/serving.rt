//! The calling thread takes links, has each served on a thread of its own, and closes the lock.
ghost use Rattle.std.specs.Prelude.{◌≡◌, ◌⊎◌, ◌+◌, ◌<◌, ◌≤◌, ℕ, List, [], length, vec_len, vec_capacity, IfOk, OnErr, MatchOption, true, All, None};
ghost use Rattle.outside.specs.Outside.{Rose};
ghost use Rattle.outside.specs.Hosts.{IsNew, NoneLeft};
ghost use Rattle.desk_lock.specs.Words.{IsOf, Since, first_pass};
ghost use Rattle.desk_serve.specs.Sessions.{terms, most_links, IsGiven, Taken, EndsFor, ClosedOver};
ghost use Rattle.desk_serve.specs.Keeping.{IsFresh, IsReady, Keeps, KeepsWith, IsStopped, IsDone, IsOverAll, Runs, held_by, most_workers};

use crate::ended::{Closing, Ended, HostEnd};
use crate::hall::{Hall, Row, free_row, join_all, join_one, note, reserve, take_in_spare};
use crate::marks::Marks;
use crate::running::start;
use cm_base::items::Items;
use cm_base::user::Users;
use desk_lock::{Lock, Pass, SplitStop};
use desk_model::{Keeper, Version};
use outside::{Clock, Failed, Gate, Host};
use std::alloc::{AllocError, Global};
use std::snapshot::Snapshot;
use std::sync::Wait;
use std::thread;
use std::thread::{Scope, Threads};
use talk::{Served, session_stands};

/// How many links are taken at most.
const MOST_LINKS: u64 = 1_048_576;

/// How many sessions run at once at most.
const MOST_WORKERS: usize = 64;

// So many sessions run at once.
#[tactic(auto, unfolding(crate::specs::Keeping::most_workers))]
fn at_once(workers: usize) -> usize
    ensures { result ≤ most_workers }
{
    if workers < MOST_WORKERS {
        workers
    } else {
        MOST_WORKERS
    }
}

// Where as many sessions run as may, one of them is joined.
#[tactic(auto, unfolding(crate::specs::Keeping::most_workers))]
fn join_down<M: Served, H: Host, C: Clock + Drop, K: Keeper<M>, R: Threads + Wait>(
    rt: &R,
    lock: &Lock<M, C, K>,
    users: &Users,
    all: &Snapshot<H>,
    marks: &Marks,
    workers: usize,
    hall: &mut Hall<M, H::Link, C, K>,
    place: u64,
)
    requires keeps { Keeps
        (terms M.next M.answer M.number M.call M.user M.least M.closes K.faults H.Link.Source.told H.Link.Sink.told
        users.now (H.left all.now.value)) lock.now hall.old.pass hall.old.ended.items
        (held_by (λ r. r.place) hall.old.running.items) (vec_len hall.old.running) 0 place }
    requires rows { All (λ r. Runs (terms M.next M.answer M.number M.call M.user M.least M.closes K.faults
        H.Link.Source.told H.Link.Sink.told users.now (H.left all.now.value)) lock.now r.handle.promise.lock.value
        r.handle.promise.users.value r.handle.promise.pass.value r.handle.promise.link.value r.place r.before)
        hall.old.running.items }
    requires room { vec_len hall.old.ended + vec_len hall.old.running ≤ vec_capacity hall.old.ended }
    requires workers { workers ≤ most_workers }
    requires few { vec_len hall.old.running ≤ most_workers }
    ensures keeps { Keeps
        (terms M.next M.answer M.number M.call M.user M.least M.closes K.faults H.Link.Source.told H.Link.Sink.told
        users.now (H.left all.now.value)) lock.now hall.new.pass hall.new.ended.items
        (held_by (λ r. r.place) hall.new.running.items) (vec_len hall.new.running) 0 place }
    ensures rows { All (λ r. Runs (terms M.next M.answer M.number M.call M.user M.least M.closes K.faults
        H.Link.Source.told H.Link.Sink.told users.now (H.left all.now.value)) lock.now r.handle.promise.lock.value
        r.handle.promise.users.value r.handle.promise.pass.value r.handle.promise.link.value r.place r.before)
        hall.new.running.items }
    ensures room { vec_len hall.new.ended + vec_len hall.new.running ≤ vec_capacity hall.new.ended }
    ensures few { vec_len hall.new.running < most_workers }
{
    if hall.running.len() > 0 && hall.running.len() >= workers {
        join_one(rt, lock, users, all, marks, hall, place);
    }
}

// Makes room for a note and a session. False: memory was wanted.
fn make_room<M: Served, H: Host, C: Clock + Drop, K: Keeper<M>, R: Threads + Wait>(
    rt: &R,
    lock: &Lock<M, C, K>,
    users: &Users,
    all: &Snapshot<H>,
    marks: &Marks,
    workers: usize,
    hall: &mut Hall<M, H::Link, C, K>,
    place: u64,
) -> bool
    requires keeps { Keeps
        (terms M.next M.answer M.number M.call M.user M.least M.closes K.faults H.Link.Source.told H.Link.Sink.told
        users.now (H.left all.now.value)) lock.now hall.old.pass hall.old.ended.items
        (held_by (λ r. r.place) hall.old.running.items) (vec_len hall.old.running) 0 place }
    requires rows { All (λ r. Runs (terms M.next M.answer M.number M.call M.user M.least M.closes K.faults
        H.Link.Source.told H.Link.Sink.told users.now (H.left all.now.value)) lock.now r.handle.promise.lock.value
        r.handle.promise.users.value r.handle.promise.pass.value r.handle.promise.link.value r.place r.before)
        hall.old.running.items }
    requires room { vec_len hall.old.ended + vec_len hall.old.running ≤ vec_capacity hall.old.ended }
    requires workers { workers ≤ most_workers }
    requires few { vec_len hall.old.running ≤ most_workers }
    ensures keeps { Keeps
        (terms M.next M.answer M.number M.call M.user M.least M.closes K.faults H.Link.Source.told H.Link.Sink.told
        users.now (H.left all.now.value)) lock.now hall.new.pass hall.new.ended.items
        (held_by (λ r. r.place) hall.new.running.items) (vec_len hall.new.running) 0 place }
    ensures rows { All (λ r. Runs (terms M.next M.answer M.number M.call M.user M.least M.closes K.faults
        H.Link.Source.told H.Link.Sink.told users.now (H.left all.now.value)) lock.now r.handle.promise.lock.value
        r.handle.promise.users.value r.handle.promise.pass.value r.handle.promise.link.value r.place r.before)
        hall.new.running.items }
    ensures room { vec_len hall.new.ended + vec_len hall.new.running ≤ vec_capacity hall.new.ended }
    ensures few { vec_len hall.new.running < most_workers }
    ensures more { result ≡ true
        → (vec_len hall.new.ended + vec_len hall.new.running + 1 ≤ vec_capacity hall.new.ended)
        × (vec_len hall.new.running < vec_capacity hall.new.running) }
{
    join_down(rt, lock, users, all, marks, workers, hall, place);
    reserve(hall)
}

// A new pass, for the next link. None: memory was wanted.
fn new_pass<M: Served, H: Host, C: Clock + Drop, K: Keeper<M>>(
    lock: &Lock<M, C, K>,
    users: &Users,
    all: &Snapshot<H>,
    hall: &mut Hall<M, H::Link, C, K>,
    place: u64,
) -> Option<Pass<M, K>>
    requires keeps { Keeps
        (terms M.next M.answer M.number M.call M.user M.least M.closes K.faults H.Link.Source.told H.Link.Sink.told
        users.now (H.left all.now.value)) lock.now hall.old.pass hall.old.ended.items
        (held_by (λ r. r.place) hall.old.running.items) (vec_len hall.old.running) 0 place }
    requires fewer { place < most_links }
    ensures keeps { KeepsWith
        (terms M.next M.answer M.number M.call M.user M.least M.closes K.faults H.Link.Source.told H.Link.Sink.told
        users.now (H.left all.now.value)) lock.now hall.new.pass hall.new.ended.items
        (held_by (λ r. r.place) hall.new.running.items) (vec_len hall.new.running) place result }
    ensures ended { hall.new.ended ≡ hall.old.ended }
    ensures running { hall.new.running ≡ hall.old.running }
{
    let _ = users;
    let _ = all;
    let _ = place;
    match lock.split(&mut hall.pass) {
        Ok(pass) => Some(pass),
        Err(SplitStop::Memory) => None,
        Err(SplitStop::Many) => unreachable!(),
    }
}

// The host's next link.
fn next_link<H: Host>(
    host: &mut H,
    all: &Snapshot<H>,
    place: u64,
) -> Result<Option<H::Link>, Failed>
    requires taken { Taken (H.told all.now.value) (H.left all.now.value) (H.told host.old) (H.left host.old) place }
    ensures link { IfOk result (λ o. MatchOption o
        (Taken (H.told all.now.value) (H.left all.now.value) (H.told host.new) (H.left host.new) place
        × (((H.told host.new).given ≡ (H.told host.new).bound) ⊎ NoneLeft (H.left host.new)))
        (λ l. Taken (H.told all.now.value) (H.left all.now.value) (H.told host.new) (H.left host.new) (place + 1)
        × IsGiven (H.left all.now.value) place l × IsNew (H.Link.Source.told l) (H.Link.Sink.told l))) }
    ensures failed { OnErr result (Taken (H.told all.now.value) (H.left all.now.value) (H.told host.new)
        (H.left host.new) place × Rose (H.told all.now.value).faults (H.told host.new).faults) }
{
    let _ = all;
    let _ = place;
    match host.accept() {
        Ok(Some(link)) => Ok(Some(link)),
        Ok(None) => Ok(None),
        Err(failed) => Err(failed),
    }
}

// Has a link served: on a thread of its own, or here where none can be made.
fn launch<
    's,
    E,
    M: Served + 's,
    H: Host,
    C: Clock + Drop + Send + 's,
    K: Keeper<M> + Send + 's,
    G: Gate + Sync + 's,
    R: Threads + Wait + Sync + 's,
>(
    scope: &Scope<'s, E>,
    rt: &'s R,
    alloc: Global,
    lock: &'s Lock<M, C, K>,
    users: &'s Users,
    gate: &'s G,
    marks: &'s Marks,
    all: &Snapshot<H>,
    hall: &mut Hall<M, H::Link, C, K>,
    place: u64,
    pass: Pass<M, K>,
    link: H::Link,
)
where
    M: Send + Sync,
    M::State: Send + Sync,
    M::Call: Send + Sync,
    M::Question: Send,
    H::Link: Send + 's,
    requires keeps { Keeps
        (terms M.next M.answer M.number M.call M.user M.least M.closes K.faults H.Link.Source.told H.Link.Sink.told
        users.now (H.left all.now.value)) lock.now hall.old.pass hall.old.ended.items
        (held_by (λ r. r.place) hall.old.running.items) (vec_len hall.old.running) 1 place }
    requires rows { All (λ r. Runs (terms M.next M.answer M.number M.call M.user M.least M.closes K.faults
        H.Link.Source.told H.Link.Sink.told users.now (H.left all.now.value)) lock.now r.handle.promise.lock.value
        r.handle.promise.users.value r.handle.promise.pass.value r.handle.promise.link.value r.place r.before)
        hall.old.running.items }
    requires room { (vec_len hall.old.ended + vec_len hall.old.running + 1 ≤ vec_capacity hall.old.ended)
        × (vec_len hall.old.running < vec_capacity hall.old.running) }
    requires few { vec_len hall.old.running < most_workers }
    requires fresh { IsFresh M.next lock.now pass }
    requires given { IsGiven (H.left all.now.value) place link }
    requires was_new { IsNew (H.Link.Source.told link) (H.Link.Sink.told link) }
    ensures keeps { Keeps
        (terms M.next M.answer M.number M.call M.user M.least M.closes K.faults H.Link.Source.told H.Link.Sink.told
        users.now (H.left all.now.value)) lock.now hall.new.pass hall.new.ended.items
        (held_by (λ r. r.place) hall.new.running.items) (vec_len hall.new.running) 0 (place + 1) }
    ensures rows { All (λ r. Runs (terms M.next M.answer M.number M.call M.user M.least M.closes K.faults
        H.Link.Source.told H.Link.Sink.told users.now (H.left all.now.value)) lock.now r.handle.promise.lock.value
        r.handle.promise.users.value r.handle.promise.pass.value r.handle.promise.link.value r.place r.before)
        hall.new.running.items }
    ensures room { vec_len hall.new.ended + vec_len hall.new.running ≤ vec_capacity hall.new.ended }
    ensures few { vec_len hall.new.running ≤ most_workers }
{
    let before = pass.seen();
    let row = free_row(&hall.running);
    match start(scope, rt, alloc, lock, users, gate, marks, row, pass, link) {
        Ok(handle) => hall.running.push_reserved(Row {
            handle,
            row,
            place,
            before,
        }),
        Err(seat) => note(lock, users, all, hall, place, before, seat),
    }
}

// Takes one link after the other.
#[tactic(auto, unfolding(crate::specs::Sessions::most_links))]
fn take_links<
    's,
    E,
    M: Served + 's,
    H: Host,
    C: Clock + Drop + Send + 's,
    K: Keeper<M> + Send + 's,
    G: Gate + Sync + 's,
    R: Threads + Wait + Sync + 's,
>(
    scope: &Scope<'s, E>,
    rt: &'s R,
    alloc: Global,
    lock: &'s Lock<M, C, K>,
    users: &'s Users,
    gate: &'s G,
    marks: &'s Marks,
    workers: usize,
    host: &mut H,
    all: &Snapshot<H>,
    hall: &mut Hall<M, H::Link, C, K>,
) -> (HostEnd, Option<Pass<M, K>>)
where
    M: Send + Sync,
    M::State: Send + Sync,
    M::Call: Send + Sync,
    M::Question: Send,
    H::Link: Send + 's,
    requires keeps { Keeps
        (terms M.next M.answer M.number M.call M.user M.least M.closes K.faults H.Link.Source.told H.Link.Sink.told
        users.now (H.left all.now.value)) lock.now hall.old.pass hall.old.ended.items
        (held_by (λ r. r.place) hall.old.running.items) (vec_len hall.old.running) 0 0 }
    requires rows { All (λ r. Runs (terms M.next M.answer M.number M.call M.user M.least M.closes K.faults
        H.Link.Source.told H.Link.Sink.told users.now (H.left all.now.value)) lock.now r.handle.promise.lock.value
        r.handle.promise.users.value r.handle.promise.pass.value r.handle.promise.link.value r.place r.before)
        hall.old.running.items }
    requires room { vec_len hall.old.ended + vec_len hall.old.running ≤ vec_capacity hall.old.ended }
    requires workers { workers ≤ most_workers }
    requires few { vec_len hall.old.running ≤ most_workers }
    requires taken { Taken (H.told all.now.value) (H.left all.now.value) (H.told host.old) (H.left host.old) 0 }
    ensures stopped { IsStopped
        (terms M.next M.answer M.number M.call M.user M.least M.closes K.faults H.Link.Source.told H.Link.Sink.told
        users.now (H.left all.now.value)) lock.now hall.new.pass hall.new.ended.items
        (held_by (λ r. r.place) hall.new.running.items) (vec_len hall.new.running) (H.told all.now.value)
        (H.told host.new) (H.left host.new) result.1 result.0 }
    ensures rows { All (λ r. Runs (terms M.next M.answer M.number M.call M.user M.least M.closes K.faults
        H.Link.Source.told H.Link.Sink.told users.now (H.left all.now.value)) lock.now r.handle.promise.lock.value
        r.handle.promise.users.value r.handle.promise.pass.value r.handle.promise.link.value r.place r.before)
        hall.new.running.items }
    ensures room { vec_len hall.new.ended + vec_len hall.new.running ≤ vec_capacity hall.new.ended }
{
    for place in 0..MOST_LINKS {
        if !make_room(rt, lock, users, all, marks, workers, hall, place) {
            return (HostEnd::Memory, None);
        }
        let Some(pass) = new_pass(lock, users, all, hall, place) else {
            return (HostEnd::Memory, None);
        };
        match next_link(host, all, place) {
            Ok(Some(link)) => launch(
                scope, rt, alloc, lock, users, gate, marks, all, hall, place, pass, link,
            ),
            Ok(None) => return (HostEnd::Empty, Some(pass)),
            Err(_) => return (HostEnd::Fault, Some(pass)),
        }
    }
    (HostEnd::Many, None)
}

// What the scope gives back: the host and what the calling thread keeps, the same as it was lent, and why no more links were taken.
#[derive(Drop)]
struct Back<'h, 'k, M: Served, H: Host, C: Clock, K: Keeper<M>> {
    host: &'h mut H,
    hall: &'k mut Hall<M, H::Link, C, K>,
    end: HostEnd,
}

// Takes links, and joins all sessions.
fn work<
    's,
    'h,
    'k,
    E,
    M: Served + 's,
    H: Host,
    C: Clock + Drop + Send + 's,
    K: Keeper<M> + Send + 's,
    G: Gate + Sync + 's,
    R: Threads + Wait + Sync + 's,
>(
    scope: &Scope<'s, E>,
    rt: &'s R,
    alloc: Global,
    lock: &'s Lock<M, C, K>,
    users: &'s Users,
    gate: &'s G,
    marks: &'s Marks,
    workers: usize,
    host: &'h mut H,
    hall: &'k mut Hall<M, H::Link, C, K>,
) -> Back<'h, 'k, M, H, C, K>
where
    M: Send + Sync,
    M::State: Send + Sync,
    M::Call: Send + Sync,
    M::Question: Send,
    H::Link: Send + 's,
    requires workers { workers ≤ most_workers }
    requires ready { IsReady
        (terms M.next M.answer M.number M.call M.user M.least M.closes K.faults H.Link.Source.told H.Link.Sink.told
        users.now (H.left host.old)) lock.now hall.old.pass hall.old.ended.items (vec_len hall.old.running) }
    ensures same_host { result.host.ghost_name ≡ host.entry.ghost_name }
    ensures same_hall { result.hall.ghost_name ≡ hall.entry.ghost_name }
    ensures over { IsOverAll
        (terms M.next M.answer M.number M.call M.user M.least M.closes K.faults H.Link.Source.told H.Link.Sink.told
        users.now (H.left host.old)) lock.now result.hall.now.pass result.hall.now.ended.items (H.told host.old)
        (H.told result.host.now) (H.left result.host.now) result.end }
{
    let all = Snapshot::of(&*host);
    let (end, spare) = take_links(
        scope, rt, alloc, lock, users, gate, marks, workers, host, &all, hall,
    );
    join_all(rt, lock, users, &all, &*host, hall, &spare, &end);
    take_in_spare(lock, users, &all, &*host, hall, spare, end);
    Back { host, hall, end }
}

// Serves in a scope of threads, which gives the host and the hall back.
fn scoped<
    'h,
    'k,
    M: Served,
    H: Host,
    C: Clock + Drop + Send,
    K: Keeper<M> + Send,
    G: Gate + Sync,
    R: Threads + Wait + Sync,
>(
    rt: &R,
    alloc: Global,
    lock: &Lock<M, C, K>,
    users: &Users,
    gate: &G,
    marks: &Marks,
    workers: usize,
    host: &'h mut H,
    hall: &'k mut Hall<M, H::Link, C, K>,
) -> Back<'h, 'k, M, H, C, K>
where
    M: Send + Sync,
    M::State: Send + Sync,
    M::Call: Send + Sync,
    M::Question: Send,
    H::Link: Send,
    requires workers { workers ≤ most_workers }
    requires ready { IsReady
        (terms M.next M.answer M.number M.call M.user M.least M.closes K.faults H.Link.Source.told H.Link.Sink.told
        users.now (H.left host.old)) lock.now hall.old.pass hall.old.ended.items (vec_len hall.old.running) }
    ensures same_host { result.host.ghost_name ≡ host.entry.ghost_name }
    ensures same_hall { result.hall.ghost_name ≡ hall.entry.ghost_name }
    ensures over { IsOverAll
        (terms M.next M.answer M.number M.call M.user M.least M.closes K.faults H.Link.Source.told H.Link.Sink.told
        users.now (H.left host.old)) lock.now result.hall.now.pass result.hall.now.ended.items (H.told host.old)
        (H.told result.host.now) (H.left result.host.now) result.end }
{
    thread::scope(
        thread::scope_env(),
        rt,
        move |scope| -> Back<'_, '_, M, H, C, K>
            requires workers { workers ≤ most_workers }
            requires ready { IsReady (terms M.next M.answer M.number M.call M.user M.least M.closes K.faults
                H.Link.Source.told H.Link.Sink.told users.now (H.left host.now)) lock.now hall.now.pass
                hall.now.ended.items (vec_len hall.now.running) }
            ensures same_host { result.host.ghost_name ≡ host.entry.ghost_name }
            ensures same_hall { result.hall.ghost_name ≡ hall.entry.ghost_name }
            ensures over { IsOverAll (terms M.next M.answer M.number M.call M.user M.least M.closes K.faults
                H.Link.Source.told H.Link.Sink.told users.entry.now (H.left host.entry.now)) lock.entry.now
                result.hall.now.pass result.hall.now.ended.items (H.told host.entry.now) (H.told result.host.now)
                (H.left result.host.now) result.end }
        {
            work(
                scope, rt, alloc, lock, users, gate, marks, workers, host, hall,
            )
        },
    )
}

// Serves in a scope of threads, and tells why no more links were taken.
fn in_scope<
    M: Served,
    H: Host,
    C: Clock + Drop + Send,
    K: Keeper<M> + Send,
    G: Gate + Sync,
    R: Threads + Wait + Sync,
>(
    rt: &R,
    alloc: Global,
    lock: &Lock<M, C, K>,
    users: &Users,
    gate: &G,
    marks: &Marks,
    workers: usize,
    host: &mut H,
    hall: &mut Hall<M, H::Link, C, K>,
) -> HostEnd
where
    M: Send + Sync,
    M::State: Send + Sync,
    M::Call: Send + Sync,
    M::Question: Send,
    H::Link: Send,
    requires workers { workers ≤ most_workers }
    requires ready { IsReady
        (terms M.next M.answer M.number M.call M.user M.least M.closes K.faults H.Link.Source.told H.Link.Sink.told
        users.now (H.left host.old)) lock.now hall.old.pass hall.old.ended.items (vec_len hall.old.running) }
    ensures { IsOverAll
        (terms M.next M.answer M.number M.call M.user M.least M.closes K.faults H.Link.Source.told H.Link.Sink.told
        users.now (H.left host.old)) lock.now hall.new.pass hall.new.ended.items (H.told host.old) (H.told host.new)
        (H.left host.new) result }
{
    let back = scoped(rt, alloc, lock, users, gate, marks, workers, host, hall);
    back.end
}

// Closes the lock.
fn close<M: Served, H: Host, C: Clock + Drop, K: Keeper<M>>(
    lock: Lock<M, C, K>,
    users: &Users,
    all: &Snapshot<H>,
    pass: Pass<M, K>,
    ended: Vec<Ended<H::Link>>,
    end: HostEnd,
) -> Closing<M, H::Link, K>
    requires { IsDone
        (terms M.next M.answer M.number M.call M.user M.least M.closes K.faults H.Link.Source.told H.Link.Sink.told
        users.now (H.left all.now.value)) lock pass ended.items }
    ensures closed { ClosedOver
        (terms M.next M.answer M.number M.call M.user M.least M.closes K.faults H.Link.Source.told H.Link.Sink.told
        users.now (H.left all.now.value)) (Since K.stands K.went lock.keeper) lock.version.opening result.store
        result.last result.ended }
    ensures ended { result.ended ≡ ended.items }
    ensures end { result.end ≡ end }
{
    let _ = users;
    let _ = all;
    session_stands::<M>();
    let (last, _clock, store) = lock.close(pass);
    last.version.lawful();
    Closing {
        last,
        store,
        ended: Items::from_vec(ended),
        end,
    }
}

// What the calling thread has at first.
fn first_hall<M: Served, H: Host, C: Clock + Drop, K: Keeper<M>>(
    alloc: Global,
    lock: &Lock<M, C, K>,
    users: &Users,
    all: &Snapshot<H>,
    pass: Pass<M, K>,
) -> Hall<M, H::Link, C, K>
    requires empty { lock.now.version.journal ≡ [] }
    requires first { pass ≡ first_pass lock.now }
    requires is_of { IsOf M.next lock.now pass }
    ensures { IsReady
        (terms M.next M.answer M.number M.call M.user M.least M.closes K.faults H.Link.Source.told H.Link.Sink.told
        users.now (H.left all.now.value)) lock.now result.pass result.ended.items (vec_len result.running) }
{
    let _ = lock;
    let _ = users;
    let _ = all;
    Hall {
        pass,
        running: Vec::new(alloc),
        ended: Vec::new(alloc),
    }
}

/// Serves the host's links over an opening, each by a session of its own, at most so many at once. More than 64 are taken for 64. The journal's
/// entries are kept by the keeper, at which none stand yet: one after the other, or all that wait together. Where memory is wanted before the
/// first link, the host isn't asked.
pub fn serve<
    M: Served,
    H: Host,
    C: Clock + Drop + Send,
    K: Keeper<M> + Send,
    G: Gate + Sync,
    R: Threads + Wait + Sync,
>(
    rt: &R,
    alloc: Global,
    opening: M::State,
    clock: C,
    users: &Users,
    workers: usize,
    host: &mut H,
    gate: &G,
    keeper: K,
    batches: bool,
) -> Result<Closing<M, H::Link, K>, AllocError>
where
    M: Send + Sync,
    M::State: Send + Sync,
    M::Call: Send + Sync,
    M::Question: Send,
    H::Link: Send,
    requires { K.stands keeper 0 [] }
    ensures closed { IfOk result (λ c. ClosedOver
        (terms M.next M.answer M.number M.call M.user M.least M.closes K.faults H.Link.Source.told H.Link.Sink.told
        users.now (H.left host.old)) (Since K.stands K.went keeper) opening c.store c.last c.ended) }
    ensures taken { IfOk result (λ c. Taken (H.told host.old) (H.left host.old) (H.told host.new) (H.left host.new)
        (length c.ended)) }
    ensures end { IfOk result (λ c. EndsFor (H.told host.old) (H.told host.new) (H.left host.new)
        (length c.ended) c.end) }
    ensures unasked { OnErr result (host.new ≡ host.old) }
{
    let all = Snapshot::of(&*host);
    let version: Version<M> = Version::opening(alloc, opening)?;
    let (lock, pass) = Lock::begin(alloc, version, clock, keeper, batches)?;
    let marks = Marks::new();
    let workers = at_once(workers);
    let mut hall = first_hall(alloc, &lock, users, &all, pass);
    let end = in_scope(
        rt, alloc, &lock, users, gate, &marks, workers, host, &mut hall,
    );
    let Hall {
        pass,
        running: _,
        ended,
    } = hall;
    Ok(close(lock, users, &all, pass, ended, end))
}
