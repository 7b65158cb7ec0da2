//! The start of a run over a journal in a file.
ghost use Rattle.std.specs.Prelude.{◌≡◌, ◌≤◌, [], IsTrue, IfOk, OnOk, IfErr};
ghost use Rattle.outside.specs.Outside.{Rose};
ghost use Rattle.disk.specs.Disks.{IsUnchanged};
ghost use Rattle.disk.specs.Crashes.{LeavesSince};
ghost use Rattle.journal_file.specs.Records.{BeginsWith, IsAsBefore};
ghost use Rattle.journal_replay.specs.Replayed.{reading_of};
ghost use Rattle.journal_replay.specs.Starts.{disk_started, BeginsWithReplay, StartsWith, StopsAt, stop_behind};

use crate::code::JournalCode;
use crate::restarts::Restarts;
use crate::so_far::{SoFar, first, next};
use crate::start_stop::StartStop;
use disk::Disk;
use journal_file::{Journal, Next, OpenStop, Opening, as_before};
use std::alloc::Global;

/// A journal that is open, and what it replays to.
#[derive(Drop)]
pub enum Begun<K: Disk, R> {
    /// It has no payload yet: who goes on puts the first.
    Empty(Journal<K>),
    Replayed(Journal<K>, R),
}

// Why the file isn't read on, behind so many entries.
fn stop_at(stop: OpenStop, entries: u64) -> StartStop
    ensures { result ≡ stop_behind stop entries }
{
    match stop {
        OpenStop::Fault => StartStop::Fault,
        OpenStop::Damaged(_) => StartStop::Damaged(entries),
        OpenStop::Memory => StartStop::Memory,
    }
}

// Replays what is left.
fn replay_rest<K: Disk, M: Restarts<P>, P: Drop, F: JournalCode<M::Call, P>>(
    alloc: Global,
    opening: Opening<K>,
    so_far: SoFar<M, P>,
) -> Result<Begun<K, SoFar<M, P>>, (StartStop, K)>
    requires { IsTrue K.tells → BeginsWithReplay
        (reading_of F.root_codec F.record_codec M.opening M.next M.adopt) so_far opening.place
        (K.told opening.disk).file.seen }
    ensures starts { IsTrue K.tells → IfOk result (λ begun. StartsWith
        (reading_of F.root_codec F.record_codec M.opening M.next M.adopt) begun (K.told opening.disk).file.seen) }
    ensures stops { IsTrue K.tells → IfErr result (λ x. StopsAt
        (reading_of F.root_codec F.record_codec M.opening M.next M.adopt) (K.told opening.disk).file.seen x.0) }
    ensures file { IsTrue K.tells → IsUnchanged (K.told opening.disk) (K.told (disk_started result)) }
    ensures stands_for { K.stands_for (disk_started result) ≡ K.stands_for opening.disk }
    ensures later { (K.told opening.disk).faults ≤ (K.told (disk_started result)).faults }
    ensures fault { IfErr result (λ x. x.0 ≡ StartStop.Fault
        → Rose (K.told opening.disk).faults (K.told x.1).faults) }
{
    let mut opening = opening;
    let mut so_far = so_far;
    'records: loop {
        let entries = so_far.entries;
        match opening.next(alloc) {
            Ok(item) => match item {
                Next::Payload(_, bytes, rest) => match next::<M, P, F>(alloc, so_far, &bytes) {
                    Ok(more) => {
                        so_far = more;
                        opening = rest;
                    }
                    Err(stop) => return Err((stop, rest.into_disk())),
                },
                Next::End(journal) => return Ok(Begun::Replayed(journal, so_far)),
            },
            Err((stop, disk)) => return Err((stop_at(stop, entries), disk)),
        }
    }
}

/// Opens the file of a disk that has begun, and replays it, one payload after the other. An `Err` hands the disk back.
pub fn start<K: Disk, M: Restarts<P>, P: Drop, F: JournalCode<M::Call, P>>(
    alloc: Global,
    disk: K,
) -> Result<Begun<K, SoFar<M, P>>, (StartStop, K)>
    ensures starts { IsTrue K.tells → IfOk result (λ begun. StartsWith
        (reading_of F.root_codec F.record_codec M.opening M.next M.adopt) begun (K.told disk).file.seen) }
    ensures seen { IsTrue K.tells → IfOk result (λ begun. StartsWith
        (reading_of F.root_codec F.record_codec M.opening M.next M.adopt) begun
        (K.told (disk_started result)).file.seen) }
    ensures stops { IsTrue K.tells → IfErr result (λ x. StopsAt
        (reading_of F.root_codec F.record_codec M.opening M.next M.adopt) (K.told disk).file.seen x.0) }
    ensures as_before { IsTrue K.tells → OnOk result
        (IsAsBefore (K.told disk).file.seen (K.told (disk_started result)).file.seen) }
    ensures any_moment { IsTrue K.tells
        → LeavesSince (IsAsBefore (K.told disk).file.seen) (K.told disk) (K.told (disk_started result)) }
    ensures stands_for { K.stands_for (disk_started result) ≡ K.stands_for disk }
    ensures later { (K.told disk).faults ≤ (K.told (disk_started result)).faults }
    ensures fault { IfErr result (λ x. x.0 ≡ StartStop.Fault → Rose (K.told disk).faults (K.told x.1).faults) }
{
    as_before();
    let opening = match Opening::begin(disk) {
        Ok(opening) => opening,
        Err(disk) => return Err((StartStop::Fault, disk)),
    };
    begun_at::<K, M, P, F>(alloc, opening)
}

// Replays a journal from its first payload on.
fn begun_at<K: Disk, M: Restarts<P>, P: Drop, F: JournalCode<M::Call, P>>(
    alloc: Global,
    opening: Opening<K>,
) -> Result<Begun<K, SoFar<M, P>>, (StartStop, K)>
    requires { IsTrue K.tells → BeginsWith [] opening.place (K.told opening.disk).file.seen }
    ensures starts { IsTrue K.tells → IfOk result (λ begun. StartsWith
        (reading_of F.root_codec F.record_codec M.opening M.next M.adopt) begun (K.told opening.disk).file.seen) }
    ensures stops { IsTrue K.tells → IfErr result (λ x. StopsAt
        (reading_of F.root_codec F.record_codec M.opening M.next M.adopt) (K.told opening.disk).file.seen x.0) }
    ensures file { IsTrue K.tells → IsUnchanged (K.told opening.disk) (K.told (disk_started result)) }
    ensures stands_for { K.stands_for (disk_started result) ≡ K.stands_for opening.disk }
    ensures later { (K.told opening.disk).faults ≤ (K.told (disk_started result)).faults }
    ensures fault { IfErr result (λ x. x.0 ≡ StartStop.Fault
        → Rose (K.told opening.disk).faults (K.told x.1).faults) }
{
    match opening.next(alloc) {
        Ok(item) => match item {
            Next::Payload(_, bytes, rest) => match first::<M, P, F>(alloc, &bytes) {
                Ok(so_far) => replay_rest::<K, M, P, F>(alloc, rest, so_far),
                Err(stop) => Err((stop, rest.into_disk())),
            },
            Next::End(journal) => Ok(Begun::Empty(journal)),
        },
        Err((stop, disk)) => Err((stop_at(stop, 0), disk)),
    }
}
