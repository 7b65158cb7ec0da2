//! The journal of a keeper, or the disk that has failed.
ghost use Rattle.std.specs.Prelude.{◌≡◌, ◌≤◌, IsTrue, ℕ, List, ◌++◌, IfErr, OnOk};
ghost use Rattle.disk.specs.Crashes.{LeavesOnly, LeavesSince};
ghost use Rattle.journal_file.specs.Records.{StandsFor, IsBeforeOrAfter};
ghost use Rattle.journal_keeper.specs.Stores.{disk_of, IsWhy};

use crate::lost::Lost;
use disk::Disk;
use journal_file::{Journal, Payloads, PutStop};
use std::alloc::Global;

/// The journal of a keeper, or the disk that has failed, whose file has to be opened again.
#[derive(Drop)]
pub enum Store<K: Disk> {
    Open(Journal<K>),
    Failed(K),
}

// Payloads that are to be put.
#[derive(Drop)]
pub(crate) struct Batch {
    pub(crate) alloc: Global,
    pub(crate) payloads: Payloads,
}

// Puts the payloads of a batch behind those that stand. A crash at any moment leaves none of them or all.
pub(crate) fn put<K: Disk>(store: Store<K>, batch: Batch) -> (Store<K>, Result<(), Lost>)
    ensures any_moment { IsTrue K.tells → (before : List (List ℕ))
        → LeavesOnly (StandsFor before) (K.told (disk_of store)).file
        → LeavesSince (IsBeforeOrAfter before batch.payloads) (K.told (disk_of store)) (K.told (disk_of result.0)) }
    ensures stands { IsTrue K.tells → (before : List (List ℕ))
        → LeavesOnly (StandsFor before) (K.told (disk_of store)).file
        → OnOk result.1 (LeavesOnly (StandsFor (before ++ batch.payloads)) (K.told (disk_of result.0)).file) }
    ensures why { IfErr result.1 (IsWhy K.told store result.0) }
    ensures later { (K.told (disk_of store)).faults ≤ (K.told (disk_of result.0)).faults }
    ensures stands_for { K.stands_for (disk_of result.0) ≡ K.stands_for (disk_of store) }
{
    let Batch { alloc, payloads } = batch;
    match store {
        Store::Open(journal) => {
            journal.lawful();
            match journal.put_all(alloc, payloads.as_slice()) {
                Ok(journal) => {
                    journal.lawful();
                    (Store::Open(journal), Ok(()))
                }
                Err(stop) => match stop {
                    PutStop::Fault(disk) => (Store::Failed(disk), Err(Lost::Disk)),
                    PutStop::Memory(journal) => (Store::Open(journal), Err(Lost::Memory)),
                },
            }
        }
        Store::Failed(disk) => (Store::Failed(disk), Err(Lost::Before)),
    }
}
