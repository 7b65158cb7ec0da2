//! The start of a run.
ghost use Rattle.std.specs.Prelude.{◌≡◌, ◌≤◌, [], ◌∷◌, ◌++◌, IsTrue, ℕ, List, IfOk, IfErr};
ghost use Rattle.outside.specs.Outside.{Rose};
ghost use Rattle.disk.specs.Crashes.{LeavesSince};
ghost use Rattle.byte_codec.specs.Payloads.{Encodes};
ghost use Rattle.journal_file.specs.Records.{IsAsBefore, IsBeforeOrAfter, StandsFor};
ghost use Rattle.journal_replay.specs.declared.record.Record.TheVariants as records;
ghost use Rattle.journal_start.specs.declared.begin_stop.BeginStop.{BeginStop};
ghost use Rattle.journal_start.specs.declared.meeting.Meeting.{Meeting};
ghost use Rattle.journal_start.specs.declared.meeting.Meeting.TheVariants.{Changed};
ghost use Rattle.journal_replay.specs.Recorded.{with_people};
ghost use Rattle.journal_replay.specs.Replayed.{Replays, at_root, reading_of};
ghost use Rattle.journal_start.specs.Starting.{BeginsBy, IsLeftByStart, IsUnput, IfTold, StopsStart, disk_begun, unput};

use crate::begin_stop::{BeginStop, stop_of};
use crate::meeting::{Meeting, PeopleRule};
use crate::put::{Unput, put_payload};
use crate::writing::JournalWriting;
use disk::Disk;
use journal_file::{Journal, as_before};
use journal_replay::{Begun, Restarts, Root, SoFar, start};
use std::alloc::{AllocError, Global};

/// A run that has begun: its journal, and what it replays to: the state, the number of entries, the number that a new session gets, which is one
/// more than the greatest before, and the people that hold.
#[derive(Drop)]
pub struct Started<K: Disk, R> {
    pub journal: Journal<K>,
    pub so_far: R,
}

fn unput<P>(stop: Unput) -> BeginStop<P>
    ensures { result ≡ unput stop }
{
    match stop {
        Unput::Fault => BeginStop::Fault,
        Unput::Memory => BeginStop::Memory,
    }
}

// The payload of a root, and what it replays to.
fn fresh_root<M: Restarts<P>, P: Drop, F: JournalWriting<M::Call, P>>(
    alloc: Global,
    root: Root<P>,
) -> Result<(Vec<u8>, SoFar<M, P>), AllocError>
    ensures { IfOk result (λ x. Encodes F.root_codec root x.0.items × (x.1 ≡ at_root M.opening root)) }
{
    let payload = F::write_root(alloc, &root)?;
    let state = M::opening(alloc, &root)?;
    let so_far = SoFar {
        state,
        entries: 0,
        sessions: 0,
        people: root.people,
    };
    Ok((payload, so_far))
}

// The payload of other people, and what the journal replays to with them.
fn other_people<M: Restarts<P>, P: Drop, F: JournalWriting<M::Call, P>>(
    alloc: Global,
    so_far: SoFar<M, P>,
    people: P,
) -> Result<(Vec<u8>, SoFar<M, P>), AllocError>
    ensures { IfOk result (λ x. Encodes F.record_codec (records.Changed people) x.0.items
        × (x.1 ≡ with_people M.adopt so_far people)) }
{
    let payload = F::write_people(alloc, &people)?;
    let state = M::adopt(alloc, &so_far.state, &people)?;
    let so_far = SoFar {
        state,
        entries: so_far.entries,
        sessions: so_far.sessions,
        people,
    };
    Ok((payload, so_far))
}

// Puts this payload, and begins with what the journal replays to then.
fn begin_with<K: Disk, R: Drop, P>(
    alloc: Global,
    journal: Journal<K>,
    payload: Vec<u8>,
    so_far: R,
) -> Result<Started<K, R>, (BeginStop<P>, K)>
    ensures so_far { IfOk result (λ s. s.so_far ≡ so_far) }
    ensures stands { IsTrue K.tells → (before : List (List ℕ)) → StandsFor before (K.told journal.disk).file.seen
        → IfOk result (λ s. StandsFor (before ++ payload.items ∷ []) (K.told s.journal.disk).file.seen) }
    ensures any_moment { IsTrue K.tells → (before : List (List ℕ)) → StandsFor before (K.told journal.disk).file.seen
        → LeavesSince (IsBeforeOrAfter before (payload.items ∷ [])) (K.told journal.disk)
        (K.told (disk_begun result)) }
    ensures stops { IfErr result (λ x. IsUnput x.0) }
    ensures stands_for { K.stands_for (disk_begun result) ≡ K.stands_for journal.disk }
    ensures later { (K.told journal.disk).faults ≤ (K.told (disk_begun result)).faults }
    ensures fault { IfErr result (λ x. x.0 ≡ BeginStop.Fault → Rose (K.told journal.disk).faults (K.told x.1).faults) }
{
    match put_payload(alloc, journal, payload) {
        Ok(journal) => Ok(Started { journal, so_far }),
        Err((stop, disk)) => Err((unput(stop), disk)),
    }
}

// Begins a journal that has no payload yet with this root.
fn begin_fresh<K: Disk, M: Restarts<P>, P: Drop, F: JournalWriting<M::Call, P>>(
    alloc: Global,
    journal: Journal<K>,
    root: Root<P>,
) -> Result<Started<K, SoFar<M, P>>, (BeginStop<P>, K)>
    ensures begins { IsTrue K.tells → (judged : P → P → Meeting) (old : List ℕ) → StandsFor [] old
        → StandsFor [] (K.told journal.disk).file.seen
        → IfOk result (λ s. BeginsBy (reading_of F.root_codec F.record_codec M.opening M.next M.adopt) judged root
        s.so_far old (K.told s.journal.disk).file.seen) }
    ensures stops { IfErr result (λ x. IsUnput x.0) }
    ensures any_moment { IsTrue K.tells → (old : List ℕ) → StandsFor [] old
        → StandsFor [] (K.told journal.disk).file.seen
        → LeavesSince (IsLeftByStart (reading_of F.root_codec F.record_codec M.opening M.next M.adopt) root old)
        (K.told journal.disk) (K.told (disk_begun result)) }
    ensures stands_for { K.stands_for (disk_begun result) ≡ K.stands_for journal.disk }
    ensures later { (K.told journal.disk).faults ≤ (K.told (disk_begun result)).faults }
    ensures fault { IfErr result (λ x. x.0 ≡ BeginStop.Fault → Rose (K.told journal.disk).faults (K.told x.1).faults) }
{
    match fresh_root::<M, P, F>(alloc, root) {
        Ok((payload, so_far)) => begin_with(alloc, journal, payload, so_far),
        Err(_) => Err((BeginStop::Memory, journal.into_disk())),
    }
}

// Begins behind what was replayed, with other people.
fn begin_changed<K: Disk, M: Restarts<P>, P: Drop, F: JournalWriting<M::Call, P>>(
    alloc: Global,
    journal: Journal<K>,
    so_far: SoFar<M, P>,
    root: Root<P>,
) -> Result<Started<K, SoFar<M, P>>, (BeginStop<P>, K)>
    ensures begins { IsTrue K.tells → (judged : P → P → Meeting) (old : List ℕ) (before : List (List ℕ))
        → judged so_far.people root.people ≡ Changed → StandsFor before old
        → StandsFor before (K.told journal.disk).file.seen
        → Replays (reading_of F.root_codec F.record_codec M.opening M.next M.adopt) before so_far
        → IfOk result (λ s. BeginsBy (reading_of F.root_codec F.record_codec M.opening M.next M.adopt) judged root
        s.so_far old (K.told s.journal.disk).file.seen) }
    ensures stops { IfErr result (λ x. IsUnput x.0) }
    ensures any_moment { IsTrue K.tells → (old : List ℕ) (before : List (List ℕ)) → StandsFor before old
        → StandsFor before (K.told journal.disk).file.seen
        → Replays (reading_of F.root_codec F.record_codec M.opening M.next M.adopt) before so_far
        → LeavesSince (IsLeftByStart (reading_of F.root_codec F.record_codec M.opening M.next M.adopt) root old)
        (K.told journal.disk) (K.told (disk_begun result)) }
    ensures stands_for { K.stands_for (disk_begun result) ≡ K.stands_for journal.disk }
    ensures later { (K.told journal.disk).faults ≤ (K.told (disk_begun result)).faults }
    ensures fault { IfErr result (λ x. x.0 ≡ BeginStop.Fault → Rose (K.told journal.disk).faults (K.told x.1).faults) }
{
    match other_people::<M, P, F>(alloc, so_far, root.people) {
        Ok((payload, so_far)) => begin_with(alloc, journal, payload, so_far),
        Err(_) => Err((BeginStop::Memory, journal.into_disk())),
    }
}

// Begins behind what was replayed, where the people allow it.
fn begin_judged<K: Disk, M: Restarts<P>, P: Drop, F: JournalWriting<M::Call, P>, R: PeopleRule<P>>(
    alloc: Global,
    journal: Journal<K>,
    so_far: SoFar<M, P>,
    root: Root<P>,
) -> Result<Started<K, SoFar<M, P>>, (BeginStop<P>, K)>
    ensures begins { IsTrue K.tells → (old : List ℕ) (before : List (List ℕ)) → StandsFor before old
        → StandsFor before (K.told journal.disk).file.seen
        → Replays (reading_of F.root_codec F.record_codec M.opening M.next M.adopt) before so_far
        → IfOk result (λ s. BeginsBy (reading_of F.root_codec F.record_codec M.opening M.next M.adopt) R.judged root
        s.so_far old (K.told s.journal.disk).file.seen) }
    ensures stops { IsTrue K.tells → (old : List ℕ) (before : List (List ℕ)) → StandsFor before old
        → Replays (reading_of F.root_codec F.record_codec M.opening M.next M.adopt) before so_far
        → IfErr result (λ x. StopsStart (reading_of F.root_codec F.record_codec M.opening M.next M.adopt) R.judged
        root old x.0) }
    ensures any_moment { IsTrue K.tells → (old : List ℕ) (before : List (List ℕ)) → StandsFor before old
        → StandsFor before (K.told journal.disk).file.seen
        → Replays (reading_of F.root_codec F.record_codec M.opening M.next M.adopt) before so_far
        → LeavesSince (IsLeftByStart (reading_of F.root_codec F.record_codec M.opening M.next M.adopt) root old)
        (K.told journal.disk) (K.told (disk_begun result)) }
    ensures untouched { IfErr result (λ x. IfTold x.0 (x.1 ≡ journal.disk)) }
    ensures stands_for { K.stands_for (disk_begun result) ≡ K.stands_for journal.disk }
    ensures later { (K.told journal.disk).faults ≤ (K.told (disk_begun result)).faults }
    ensures fault { IfErr result (λ x. x.0 ≡ BeginStop.Fault → Rose (K.told journal.disk).faults (K.told x.1).faults) }
{
    match R::judge(&so_far.people, &root.people) {
        Meeting::Same => Ok(Started { journal, so_far }),
        Meeting::Changed => begin_changed::<K, M, P, F>(alloc, journal, so_far, root),
        Meeting::Refused => Err((BeginStop::People(so_far.people), journal.into_disk())),
    }
}

/// Opens the file of a disk that has begun, replays it, and begins a run with this root: where the file stands for no payloads, the root is put;
/// else its moment means nothing, and its people are judged by those of the file. An `Err` hands the disk back. A crash at any moment leaves the
/// file as it was, or with what the run puts.
pub fn begin_journal<
    K: Disk,
    M: Restarts<P>,
    P: Drop,
    F: JournalWriting<M::Call, P>,
    R: PeopleRule<P>,
>(alloc: Global, disk: K, root: Root<P>) -> Result<Started<K, SoFar<M, P>>, (BeginStop<P>, K)>
    ensures begins { IsTrue K.tells → IfOk result (λ s. BeginsBy
        (reading_of F.root_codec F.record_codec M.opening M.next M.adopt) R.judged root s.so_far
        (K.told disk).file.seen (K.told s.journal.disk).file.seen) }
    ensures stops { IsTrue K.tells → IfErr result (λ x. StopsStart
        (reading_of F.root_codec F.record_codec M.opening M.next M.adopt) R.judged root (K.told disk).file.seen x.0) }
    ensures any_moment { IsTrue K.tells → LeavesSince (IsLeftByStart
        (reading_of F.root_codec F.record_codec M.opening M.next M.adopt) root (K.told disk).file.seen)
        (K.told disk) (K.told (disk_begun result)) }
    ensures untouched { IsTrue K.tells → IfErr result (λ x. IfTold x.0
        (LeavesSince (IsAsBefore (K.told disk).file.seen) (K.told disk) (K.told x.1))) }
    ensures stands_for { K.stands_for (disk_begun result) ≡ K.stands_for disk }
    ensures later { (K.told disk).faults ≤ (K.told (disk_begun result)).faults }
    ensures fault { IfErr result (λ x. x.0 ≡ BeginStop.Fault → Rose (K.told disk).faults (K.told x.1).faults) }
{
    as_before();
    match start::<K, M, P, F>(alloc, disk) {
        Ok(begun) => match begun {
            Begun::Empty(journal) => begin_fresh::<K, M, P, F>(alloc, journal, root),
            Begun::Replayed(journal, so_far) => {
                begin_judged::<K, M, P, F, R>(alloc, journal, so_far, root)
            }
        },
        Err((stop, disk)) => Err((stop_of(stop), disk)),
    }
}
