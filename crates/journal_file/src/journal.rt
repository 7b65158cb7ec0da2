//! The journal: a disk whose file is at rest.
ghost use Rattle.std.specs.Prelude.{◌≡◌, ◌+◌, ◌-◌, ◌<◌, ◌≤◌, ◌^◌, [], ◌∷◌, ◌++◌, IsTrue, ℕ, List, length, IfOk, IfErr};
ghost use Rattle.std.specs.Arc.{arc_value};
ghost use Rattle.archive.specs.Extents.{Stands};
ghost use Rattle.outside.specs.Outside.{HasCause, Rose};
ghost use Rattle.disk.specs.Disks.{IsUnchanged, told_now};
ghost use Rattle.disk.specs.Crashes.{IsSynced, LeavesSince};
ghost use Rattle.journal_file.specs.Records.{StandsFor, IsAsBefore, IsBeforeOrAfter, IsClosedAt, RestsAfter, records};
ghost use Rattle.journal_file.specs.Readings.{IsFrameOf};
ghost use Rattle.journal_file.specs.Stops.{IsDamagedBehind, DamageIs};

use crate::appending::append;
use crate::open_stop::OpenStop;
use crate::opening::Opening;
use crate::put_stop::PutStop;
use crate::whole::{Payloads, open_whole};
use crate::writing::{frame_of, frame_of_one};
use archive::Archive;
use bytes::Bytes;
use disk::Disk;
use outside::Failed;
use std::alloc::Global;
use std::marker::Model;
use std::sync::Arc;

/// A disk whose file stands for the payloads of a journal, all of it on the disk. It is seen as the disk and the place of the closed gate.
#[derive(Drop)]
pub struct Journal<K: Disk> {
    disk: K,
    gate: u64,
}

impl<K: Disk> Model for Journal<K> {
    ghost use Rattle.std.specs.Prelude.{◌<◌, ◌^◌, IsTrue, ℕ, List};
    ghost use Rattle.journal_file.specs.Records.{RestsAfter};
    ghost use Rattle.journal_file.specs.Told.{JournalTold};

    ghost Value = { JournalTold K };

    ghost view = { λ j. record { disk = j.disk; end = j.gate } };

    ghost invariant = { λ j. (j.gate < 2 ^ 63) × (IsTrue K.tells → (payloads : List (List ℕ))
        × RestsAfter payloads j.gate (K.told j.disk).file) };
}

impl<K: Disk> Journal<K> {
    ghost use Rattle.journal_file.specs.Journals.{disk_opened, disk_either, disk_put, KeepsWhereMemoryEnds, FaultIs};

    // A journal whose file is at rest, with its closed gate at this place.
    pub(crate) fn at_rest(disk: K, gate: u64) -> Journal<K>
        requires fits { gate < 2 ^ 63 }
        requires rests { IsTrue K.tells → (payloads : List (List ℕ)) × RestsAfter payloads gate (K.told disk).file }
        ensures disk { result.disk ≡ disk }
        ensures end { result.end ≡ gate }
    {
        Journal { disk, gate }
    }

    /// What it stands for, and that a crash leaves it.
    pub fn lawful(&self)
        ensures stands { IsTrue K.tells → (payloads : List (List ℕ))
            × IsClosedAt payloads self.now.end (K.told self.now.disk).file.seen }
        ensures synced { IsTrue K.tells → IsSynced (K.told self.now.disk).file }
        ensures fits { self.now.end < 2 ^ 63 }
    {
        let _ = &self.gate;
    }

    /// The disk.
    pub fn disk(&self) -> &K
        ensures { result.now ≡ self.now.disk }
    {
        &self.disk
    }

    /// The disk, given back.
    pub fn into_disk(self) -> K
        ensures { result ≡ self.disk }
    {
        self.disk
    }

    /// The file, for those who keep places of payloads.
    pub fn archive(&mut self) -> Result<Arc<Archive>, Failed>
        ensures archive { IfOk result (λ a. arc_value a ≡ told_now K.tells (K.told self.old.disk).file) }
        ensures file { IsTrue K.tells → IsUnchanged (K.told self.old.disk) (K.told self.new.disk) }
        ensures end { self.new.end ≡ self.old.end }
        ensures stands_for { K.stands_for self.new.disk ≡ K.stands_for self.old.disk }
        ensures cause { HasCause (K.told self.old.disk).faults (K.told self.new.disk).faults result }
    {
        self.disk.archive()
    }

    // Adds the records of a frame.
    fn put_frame(self, frame: &[u8]) -> Result<Journal<K>, K>
        requires long { 1 < length frame.now }
        requires frame { (new : List (List ℕ)) × IsFrameOf new frame.now }
        ensures any_moment { IsTrue K.tells → (before new : List (List ℕ))
            → StandsFor before (K.told self.disk).file.seen
            → IsFrameOf new frame.now
            → LeavesSince (IsBeforeOrAfter before new) (K.told self.disk) (K.told (disk_either result)) }
        ensures stands { IsTrue K.tells → (before new : List (List ℕ)) → StandsFor before (K.told self.disk).file.seen
            → IsFrameOf new frame.now
            → IfOk result (λ journal. StandsFor (before ++ new) (K.told journal.disk).file.seen) }
        ensures end { IfOk result (λ journal. journal.end ≡ self.end + (length frame.now - 1)) }
        ensures stands_for { K.stands_for (disk_either result) ≡ K.stands_for self.disk }
        ensures cause { HasCause (K.told self.disk).faults (K.told (disk_either result)).faults result }
    {
        let Journal { mut disk, gate } = self;
        match append(&mut disk, gate, frame) {
            Ok(()) => {
                let gate = gate + (frame.len() as u64 - 1);
                Ok(Journal { disk, gate })
            }
            Err(_) => Err(disk),
        }
    }

    /// Opens the file of a disk that has begun, and keeps all its payloads. An `Err` hands the disk back.
    pub fn open(alloc: Global, disk: K) -> Result<(Journal<K>, Payloads), (OpenStop, K)>
        ensures stands { IsTrue K.tells → IfOk result (λ x. StandsFor x.1 (K.told disk).file.seen
            × StandsFor x.1 (K.told x.0.disk).file.seen) }
        ensures damaged { IsTrue K.tells
            → IfErr result (λ x. DamageIs x.0 (λ count. IsDamagedBehind count (K.told disk).file.seen)) }
        ensures any_moment { IsTrue K.tells
            → LeavesSince (IsAsBefore (K.told disk).file.seen) (K.told disk) (K.told (disk_opened result)) }
        ensures stands_for { K.stands_for (disk_opened result) ≡ K.stands_for disk }
        ensures later { (K.told disk).faults ≤ (K.told (disk_opened result)).faults }
        ensures fault { IfErr result (λ x. x.0 ≡ OpenStop.Fault → Rose (K.told disk).faults (K.told x.1).faults) }
    {
        match Opening::begin(disk) {
            Ok(opening) => open_whole(alloc, opening),
            Err(disk) => Err((OpenStop::Fault, disk)),
        }
    }

    /// Puts all these payloads behind those that stand, with two syncs, as many as they are. A crash at any moment of the call leaves
    /// none of them or all. At `Ok` they are acknowledged: from then on each crash leaves a file that has them.
    pub fn put_all(self, alloc: Global, payloads: &[Bytes]) -> Result<Journal<K>, PutStop<K>>
        ensures any_moment { IsTrue K.tells → (before : List (List ℕ)) → StandsFor before (K.told self.disk).file.seen
            → LeavesSince (IsBeforeOrAfter before payloads.now) (K.told self.disk) (K.told (disk_put result)) }
        ensures stands { IsTrue K.tells → (before : List (List ℕ)) → StandsFor before (K.told self.disk).file.seen
            → IfOk result (λ journal. StandsFor (before ++ payloads.now) (K.told journal.disk).file.seen) }
        ensures end { IfOk result (λ journal. journal.end ≡ self.end + length (records payloads.now)) }
        ensures unchanged { KeepsWhereMemoryEnds result self }
        ensures stands_for { K.stands_for (disk_put result) ≡ K.stands_for self.disk }
        ensures later { (K.told self.disk).faults ≤ (K.told (disk_put result)).faults }
        ensures fault { IfErr result (λ stop. FaultIs stop
            (λ disk. Rose (K.told self.disk).faults (K.told disk).faults)) }
    {
        let frame = match frame_of(alloc, payloads) {
            Ok(frame) => frame,
            Err(_) => return Err(PutStop::Memory(self)),
        };
        if frame.len() < 2 {
            return Ok(self);
        }
        match self.put_frame(&frame) {
            Ok(journal) => Ok(journal),
            Err(disk) => Err(PutStop::Fault(disk)),
        }
    }

    /// Puts one payload.
    pub fn put(self, alloc: Global, payload: &Bytes) -> Result<Journal<K>, PutStop<K>>
        ensures any_moment { IsTrue K.tells → (before : List (List ℕ)) → StandsFor before (K.told self.disk).file.seen
            → LeavesSince (IsBeforeOrAfter before (payload.now ∷ [])) (K.told self.disk) (K.told (disk_put result)) }
        ensures stands { IsTrue K.tells → (before : List (List ℕ)) → StandsFor before (K.told self.disk).file.seen
            → IfOk result (λ journal. StandsFor (before ++ payload.now ∷ []) (K.told journal.disk).file.seen) }
        ensures end { IfOk result (λ journal. journal.end ≡ self.end + length (records (payload.now ∷ []))) }
        ensures unchanged { KeepsWhereMemoryEnds result self }
        ensures stands_for { K.stands_for (disk_put result) ≡ K.stands_for self.disk }
        ensures later { (K.told self.disk).faults ≤ (K.told (disk_put result)).faults }
        ensures fault { IfErr result (λ stop. FaultIs stop
            (λ disk. Rose (K.told self.disk).faults (K.told disk).faults)) }
    {
        match frame_of_one(alloc, payload.as_slice()) {
            Ok(frame) => match self.put_frame(&frame) {
                Ok(journal) => Ok(journal),
                Err(disk) => Err(PutStop::Fault(disk)),
            },
            Err(_) => Err(PutStop::Memory(self)),
        }
    }
}
