//! Opens a journal, one payload after the other.
ghost use Rattle.std.specs.Prelude.{◌≡◌, ◌<◌, ◌≤◌, [], IsTrue, ℕ, List, length, IfOk, IfErr};
ghost use Rattle.std.specs.Arc.{arc_value};
ghost use Rattle.archive.specs.Extents.{Stands};
ghost use Rattle.outside.specs.Outside.{HasCause, Rose};
ghost use Rattle.disk.specs.Disks.{IsUnchanged, told_now};
ghost use Rattle.disk.specs.Crashes.{LeavesSince};
ghost use Rattle.journal_file.specs.Records.{IsAsBefore, BeginsWith, IsDamagedAfter};
ghost use Rattle.journal_file.specs.Stops.{DamageIs};

use crate::journal::Journal;
use crate::open_stop::OpenStop;
use crate::preparing::prepare;
use crate::reading::{Head, bytes_at, head_at};
use archive::Archive;
use disk::Disk;
use outside::Failed;
use std::alloc::Global;
use std::marker::Model;
use std::sync::Arc;

/// A journal that is being opened. It hands out the payloads that its file stands for, the earliest first, and keeps none of them. From then on
/// until the journal is open, the file isn't changed.
#[derive(Drop)]
pub struct Opening<K: Disk> {
    disk: K,
    place: u64,
    left: u64,
    count: u64,
}

impl<K: Disk> Model for Opening<K> {
    ghost use Rattle.journal_file.specs.Told.{OpeningTold};
    ghost use Rattle.journal_file.specs.Openings.{IsBeingOpened};

    ghost Value = { OpeningTold K };

    ghost view = { λ o. record { disk = o.disk; place = o.place; left = o.left } };

    ghost invariant = { λ o. IsBeingOpened K.tells (K.told o.disk).file o.place o.left o.count };
}

/// What an opening hands out.
#[derive(Drop)]
pub enum Next<K: Disk> {
    /// The next payload: the place of its first byte in the file, its bytes, and the opening, which goes on behind it.
    Payload(u64, Vec<u8>, Opening<K>),
    /// There are no more: the journal, which is open.
    End(Journal<K>),
}

impl<K: Disk> Opening<K> {
    ghost use Rattle.journal_file.specs.Nexts.{disk_begun, disk_next, GoesOn, IfPayload};

    /// Begins to open the file of a disk that has begun. Where the disk fails, it is handed back.
    pub fn begin(disk: K) -> Result<Opening<K>, K>
        ensures begins { IsTrue K.tells → IfOk result (λ o. BeginsWith [] o.place (K.told o.disk).file.seen) }
        ensures as_before { IsTrue K.tells
            → IfOk result (λ o. IsAsBefore (K.told disk).file.seen (K.told o.disk).file.seen) }
        ensures any_moment { IsTrue K.tells
            → LeavesSince (IsAsBefore (K.told disk).file.seen) (K.told disk) (K.told (disk_begun result)) }
        ensures stands_for { K.stands_for (disk_begun result) ≡ K.stands_for disk }
        ensures cause { HasCause (K.told disk).faults (K.told (disk_begun result)).faults result }
    {
        let mut disk = disk;
        match prepare(&mut disk) {
            Ok(len) => Ok(Opening {
                disk,
                place: 0,
                left: len,
                count: 0,
            }),
            Err(_) => Err(disk),
        }
    }

    /// The disk, given back before the journal is open.
    pub fn into_disk(self) -> K
        ensures { result ≡ self.disk }
    {
        self.disk
    }

    /// The file, for those who keep places of payloads.
    pub fn archive(&mut self) -> Result<Arc<Archive>, Failed>
        ensures archive { IfOk result (λ a. arc_value a ≡ told_now K.tells (K.told self.old.disk).file) }
        ensures file { IsTrue K.tells → IsUnchanged (K.told self.old.disk) (K.told self.new.disk) }
        ensures place { self.new.place ≡ self.old.place }
        ensures left { self.new.left ≡ self.old.left }
        ensures stands_for { K.stands_for self.new.disk ≡ K.stands_for self.old.disk }
        ensures cause { HasCause (K.told self.old.disk).faults (K.told self.new.disk).faults result }
    {
        self.disk.archive()
    }

    /// Hands out the next payload, or the journal where there are no more. It reads the payload's bytes and no others but its head.
    /// An `Err` hands the disk back: so many records stand before the damage, and want of memory has changed nothing.
    pub fn next(self, alloc: Global) -> Result<Next<K>, (OpenStop, K)>
        ensures next { IsTrue K.tells → (before : List (List ℕ))
            → BeginsWith before self.place (K.told self.disk).file.seen
            → IfOk result (GoesOn before (K.told self.disk).file.seen) }
        ensures damaged { IsTrue K.tells → (before : List (List ℕ))
            → BeginsWith before self.place (K.told self.disk).file.seen
            → IfErr result (λ x. DamageIs x.0 (λ count. (length before ≡ count)
            × IsDamagedAfter before (K.told self.disk).file.seen)) }
        ensures stands { IfOk result (λ next. IfPayload next
            (λ place bytes _. Stands (told_now K.tells (K.told self.disk).file) place (length bytes) bytes)) }
        ensures shorter { IfOk result (λ next. IfPayload next (λ _ _ rest. rest.left < self.left)) }
        ensures file { IsTrue K.tells → IsUnchanged (K.told self.disk) (K.told (disk_next result)) }
        ensures stands_for { K.stands_for (disk_next result) ≡ K.stands_for self.disk }
        ensures later { (K.told self.disk).faults ≤ (K.told (disk_next result)).faults }
        ensures fault { IfErr result (λ x. x.0 ≡ OpenStop.Fault → Rose (K.told self.disk).faults (K.told x.1).faults) }
    {
        let Opening {
            mut disk,
            place,
            left,
            count,
        } = self;
        match head_at(&mut disk, place, left) {
            Ok(head) => match head {
                Head::Closed => Ok(Next::End(Journal::at_rest(disk, place))),
                Head::Broken => Err((OpenStop::Damaged(count), disk)),
                Head::Payload(len) => match bytes_at(alloc, &mut disk, place + 9, len) {
                    Ok(bytes) => {
                        let rest = Opening {
                            disk,
                            place: place + 9 + len,
                            left: left - 9 - len,
                            count: count + 1,
                        };
                        Ok(Next::Payload(place + 9, bytes, rest))
                    }
                    Err(stop) => Err((stop, disk)),
                },
            },
            Err(_) => Err((OpenStop::Fault, disk)),
        }
    }
}
