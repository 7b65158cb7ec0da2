//! Puts one payload.
ghost use Rattle.std.specs.Prelude.{◌≡◌, ◌≤◌, ◌∷◌, [], ◌++◌, IsTrue, ℕ, List, IfOk, IfErr};
ghost use Rattle.outside.specs.Outside.{Rose};
ghost use Rattle.disk.specs.Crashes.{LeavesSince};
ghost use Rattle.journal_file.specs.Records.{StandsFor, IsBeforeOrAfter};
ghost use Rattle.journal_start.specs.Starting.{disk_left};

use bytes::Bytes;
use disk::Disk;
use journal_file::{Journal, PutStop};
use std::alloc::Global;

/// Why a payload isn't put.
#[derive(Clone, Copy, Debug, PartialEq, Eq, Drop)]
pub(crate) enum Unput {
    /// The disk has failed.
    Fault,
    Memory,
}

// Puts these bytes as a payload.
fn put_bytes<K: Disk>(
    alloc: Global,
    journal: Journal<K>,
    payload: &Bytes,
) -> Result<Journal<K>, (Unput, K)>
    ensures stands { IsTrue K.tells → (before : List (List ℕ)) → StandsFor before (K.told journal.disk).file.seen
        → IfOk result (λ j. StandsFor (before ++ payload.now ∷ []) (K.told j.disk).file.seen) }
    ensures any_moment { IsTrue K.tells → (before : List (List ℕ)) → StandsFor before (K.told journal.disk).file.seen
        → LeavesSince (IsBeforeOrAfter before (payload.now ∷ [])) (K.told journal.disk) (K.told (disk_left result)) }
    ensures stands_for { K.stands_for (disk_left result) ≡ K.stands_for journal.disk }
    ensures later { (K.told journal.disk).faults ≤ (K.told (disk_left result)).faults }
    ensures fault { IfErr result (λ x. x.0 ≡ Unput.Fault → Rose (K.told journal.disk).faults (K.told x.1).faults) }
{
    match journal.put(alloc, payload) {
        Ok(journal) => Ok(journal),
        Err(stop) => match stop {
            PutStop::Fault(disk) => Err((Unput::Fault, disk)),
            PutStop::Memory(journal) => Err((Unput::Memory, journal.into_disk())),
        },
    }
}

/// Puts one payload behind those that stand. A crash at any moment of it leaves these, or these and the new one. An `Err` hands the disk back.
pub(crate) fn put_payload<K: Disk>(
    alloc: Global,
    journal: Journal<K>,
    payload: Vec<u8>,
) -> Result<Journal<K>, (Unput, K)>
    ensures stands { IsTrue K.tells → (before : List (List ℕ)) → StandsFor before (K.told journal.disk).file.seen
        → IfOk result (λ j. StandsFor (before ++ payload.items ∷ []) (K.told j.disk).file.seen) }
    ensures any_moment { IsTrue K.tells → (before : List (List ℕ)) → StandsFor before (K.told journal.disk).file.seen
        → LeavesSince (IsBeforeOrAfter before (payload.items ∷ [])) (K.told journal.disk)
        (K.told (disk_left result)) }
    ensures stands_for { K.stands_for (disk_left result) ≡ K.stands_for journal.disk }
    ensures later { (K.told journal.disk).faults ≤ (K.told (disk_left result)).faults }
    ensures fault { IfErr result (λ x. x.0 ≡ Unput.Fault → Rose (K.told journal.disk).faults (K.told x.1).faults) }
{
    match Bytes::from_vec(payload) {
        Ok(payload) => put_bytes(alloc, journal, &payload),
        Err(_) => Err((Unput::Memory, journal.into_disk())),
    }
}
