//! The beginning of a run.
ghost use Rattle.std.specs.Prelude.{◌≡◌, ◌≤◌, ◌^◌, [], IsTrue, IfOk, IfErr};
ghost use Rattle.outside.specs.Outside.{Rose};
ghost use Rattle.disk.specs.Crashes.{LeavesSince};
ghost use Rattle.journal_file.specs.Records.{IsAsBefore};
ghost use Rattle.journal_keeper.specs.Stores.{Stands};
ghost use Rattle.journal_replay.specs.Replayed.{reading_of};
ghost use Rattle.journal_start.specs.Starting.{IsLeftByStart};
ghost use Rattle.journal_start.specs.declared.begin_stop.BeginStop.{BeginStop};
ghost use Rattle.journal_runs.specs.declared.kept_stop.KeptStop.{KeptStop};
ghost use Rattle.journal_runs.specs.Begins.{BegunIn, IsFirst, StopsRun, WhereUntouched, CannotGoOn, disk_of_run};

use crate::kept_stop::KeptStop;
use crate::limits::LimitsOf;
use cm_base::text::Text;
use disk::Disk;
use journal_keeper::{EntryCode, JournalKeeper};
use journal_replay::{Restarts, Root, SoFar};
use journal_start::{BeginStop, JournalWriting, PeopleRule, Started, begin_journal};
use std::alloc::Global;

// With what a run goes on behind what was replayed: the state under its limits, and what is added to the numbers of its sessions.
fn goes_on<M: Restarts<P>, P: Drop, L: LimitsOf<M::State>>(
    alloc: Global,
    so_far: SoFar<M, P>,
    limits: L,
) -> Result<(M::State, u32), KeptStop<P>>
    requires { L.are limits }
    ensures state { IfOk result (λ x. x.0 ≡ L.under limits so_far.state) }
    ensures offset { IfOk result (λ x. x.1 ≡ so_far.sessions) }
    ensures stops { IfErr result (CannotGoOn so_far.sessions) }
{
    let Ok(offset) = u32::try_from(so_far.sessions) else {
        return Err(KeptStop::Sessions);
    };
    match limits.under(alloc, &so_far.state) {
        Ok(state) => Ok((state, offset)),
        Err(_) => Err(KeptStop::NotBegun(BeginStop::Memory)),
    }
}

// Begins a run over a journal that has begun.
fn begin_over<K: Disk, M: Restarts<P>, P: Drop, F: EntryCode<M::Call>, L: LimitsOf<M::State>>(
    alloc: Global,
    started: Started<K, SoFar<M, P>>,
    limits: L,
) -> Result<(M::State, JournalKeeper<K, F>), (KeptStop<P>, K)>
    requires { L.are limits }
    ensures state { IfOk result (λ x. x.0 ≡ L.under limits started.so_far.state) }
    ensures offset { IfOk result (λ x. x.1.offset ≡ started.so_far.sessions) }
    ensures first { IfOk result (λ x. IsFirst x.1) }
    ensures stands { IfOk result (λ x. Stands K.tells K.told F.codec x.1 0 []) }
    ensures stops { IfErr result (λ x. CannotGoOn started.so_far.sessions x.0) }
    ensures disk { disk_of_run result ≡ started.journal.disk }
{
    let Started { journal, so_far } = started;
    match goes_on::<M, P, L>(alloc, so_far, limits) {
        Ok((state, offset)) => {
            let keeper = JournalKeeper::<K, F>::new::<M::Call>(alloc, journal, offset);
            Ok((state, keeper))
        }
        Err(stop) => Err((stop, journal.into_disk())),
    }
}

// Begins a run over a disk whose file is open.
fn begin_opened<
    K: Disk,
    M: Restarts<P>,
    P: Drop,
    F: JournalWriting<M::Call, P> + EntryCode<M::Call>,
    R: PeopleRule<P>,
    L: LimitsOf<M::State>,
>(
    alloc: Global,
    disk: K,
    root: Root<P>,
    limits: L,
) -> Result<(M::State, JournalKeeper<K, F>), (KeptStop<P>, K)>
    requires { L.are limits }
    ensures begun { IsTrue K.tells → IfOk result (λ x. BegunIn
        (reading_of F.root_codec F.record_codec M.opening M.next M.adopt) R.judged root (L.under limits)
        (K.told disk) (K.told x.1.begun) x.0 x.1.offset) }
    ensures first { IfOk result (λ x. IsFirst x.1) }
    ensures stands { IfOk result (λ x. Stands K.tells K.told F.codec x.1 0 []) }
    ensures stops { IsTrue K.tells → IfErr result (λ x. StopsRun
        (reading_of F.root_codec F.record_codec M.opening M.next M.adopt) R.judged root (K.told disk).file.seen
        (K.told x.1).file.seen x.0) }
    ensures any_moment { IsTrue K.tells → LeavesSince (IsLeftByStart
        (reading_of F.root_codec F.record_codec M.opening M.next M.adopt) root (K.told disk).file.seen)
        (K.told disk) (K.told (disk_of_run result)) }
    ensures untouched { IsTrue K.tells → IfErr result (λ x. WhereUntouched x.0
        (LeavesSince (IsAsBefore (K.told disk).file.seen) (K.told disk) (K.told x.1))) }
    ensures stands_for { K.stands_for (disk_of_run result) ≡ K.stands_for disk }
    ensures later { (K.told disk).faults ≤ (K.told (disk_of_run result)).faults }
    ensures fault { IfErr result (λ x. x.0 ≡ KeptStop.NotBegun BeginStop.Fault
        → Rose (K.told disk).faults (K.told x.1).faults) }
{
    match begin_journal::<K, M, P, F, R>(alloc, disk, root) {
        Ok(started) => begin_over::<K, M, P, F, L>(alloc, started, limits),
        Err((stop, disk)) => Err((KeptStop::NotBegun(stop), disk)),
    }
}

/// Begins a run over the file of this name, with this root: the journal is replayed, what the run has to put first is put, and the run goes on
/// from the state of the replay under its own limits, with a keeper that has kept nothing yet. In the file the number of a session is
/// greater, by one more than the greatest before. An `Err` hands the disk back.
pub fn begin<
    K: Disk,
    M: Restarts<P>,
    P: Drop,
    F: JournalWriting<M::Call, P> + EntryCode<M::Call>,
    R: PeopleRule<P>,
    L: LimitsOf<M::State>,
>(
    alloc: Global,
    disk: K,
    file: &Text,
    root: Root<P>,
    limits: L,
) -> Result<(M::State, JournalKeeper<K, F>), (KeptStop<P>, K)>
    requires { L.are limits }
    ensures begun { IsTrue K.tells → IfOk result (λ x. BegunIn
        (reading_of F.root_codec F.record_codec M.opening M.next M.adopt) R.judged root (L.under limits)
        (K.told disk) (K.told x.1.begun) x.0 x.1.offset) }
    ensures first { IfOk result (λ x. IsFirst x.1) }
    ensures stands { IfOk result (λ x. Stands K.tells K.told F.codec x.1 0 []) }
    ensures stops { IsTrue K.tells → IfErr result (λ x. StopsRun
        (reading_of F.root_codec F.record_codec M.opening M.next M.adopt) R.judged root (K.told disk).file.seen
        (K.told x.1).file.seen x.0) }
    ensures any_moment { IsTrue K.tells → LeavesSince (IsLeftByStart
        (reading_of F.root_codec F.record_codec M.opening M.next M.adopt) root (K.told disk).file.seen)
        (K.told disk) (K.told (disk_of_run result)) }
    ensures untouched { IsTrue K.tells → IfErr result (λ x. WhereUntouched x.0
        (LeavesSince (IsAsBefore (K.told disk).file.seen) (K.told disk) (K.told x.1))) }
    ensures stands_for { K.stands_for (disk_of_run result) ≡ K.stands_for disk }
    ensures later { (K.told disk).faults ≤ (K.told (disk_of_run result)).faults }
    ensures fault { IfErr result (λ x. x.0 ≡ KeptStop.NotBegun BeginStop.Fault
        → Rose (K.told disk).faults (K.told x.1).faults) }
{
    let mut disk = disk;
    match disk.begin(file) {
        Ok(()) => begin_opened::<K, M, P, F, R, L>(alloc, disk, root, limits),
        Err(_) => Err((KeptStop::NotBegun(BeginStop::Fault), disk)),
    }
}
