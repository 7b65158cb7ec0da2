//! A file of the system as a disk.
ghost use Rattle.std.specs.Prelude.{◌≡◌, ◌≤◌, [], None, IfSome, false};
ghost use Rattle.std.specs.Arc.{arc_value};
ghost use Rattle.outside.specs.Outside.{Rose};
ghost use Rattle.disk.specs.Calls.{at_first};

use crate::reason::Reason;
use crate::system::{len_of, open_locked, read_from, sync_to_disk, write_to};
use archive::Archive;
use cm_base::text::Text;
use disk::{Disk, LONGEST, ends_within};
use outside::Failed;
use std::alloc::Global;
use std::fs::File;
use std::rt::Files;
use std::sync::Arc;

/// The file that `begin` has opened, held by a lock, so that no other process that asks for the lock writes to it. The system drops the lock with the
/// process, or once the disk and its archives are gone. Once a sync has failed, each further call is a fault until the file is begun again: the system
/// may have dropped what was written, and a later sync would not say so.
#[derive(Drop)]
pub struct FileDisk<'a, R: Files<File = File>> {
    rt: &'a R,
    alloc: Global,
    file: Option<File>,
    spoiled: Option<File>,
    archive: Option<Arc<Archive>>,
    reason: Option<Reason>,
    faults: u64,
    ghost untold: { ∥ IfSome archive (λ a. arc_value a ≡ None) ∥₁ },
}

impl<'a, R: Files<File = File>> FileDisk<'a, R> {
    /// A disk of this runtime, which has not begun.
    pub fn new(rt: &'a R, alloc: Global) -> FileDisk<'a, R> {
        FileDisk {
            rt,
            alloc,
            file: None,
            spoiled: None,
            archive: None,
            reason: None,
            faults: 0,
        }
    }

    /// Why the first call that failed did so, since the file was begun.
    pub fn reason(&self) -> Option<Reason> {
        self.reason
    }

    // One more fault, for this reason.
    fn fault(&mut self, reason: Reason) -> Failed
        ensures later { self.old.faults ≤ self.new.faults }
        ensures rose { Rose self.old.faults self.new.faults }
    {
        if self.reason.is_none() {
            self.reason = Some(reason);
        }
        self.faults = self.faults.saturating_add(1);
        Failed
    }
}

// The archive of a file that is open, twice: that which was made before, or a new one over the same open file.
fn archive_of(
    alloc: Global,
    file: &Option<File>,
    made: &Option<Arc<Archive>>,
) -> Option<(Arc<Archive>, Arc<Archive>)>
    requires { IfSome made.now (λ a. arc_value a ≡ None) }
    ensures { IfSome result (λ both. (arc_value both.0 ≡ None) × (arc_value both.1 ≡ None)) }
{
    match file {
        Some(file) => match made {
            Some(archive) => both(archive),
            None => both_of(alloc, file),
        },
        None => None,
    }
}

fn both(archive: &Arc<Archive>) -> Option<(Arc<Archive>, Arc<Archive>)>
    requires { arc_value archive.now ≡ None }
    ensures { IfSome result (λ both. (arc_value both.0 ≡ None) × (arc_value both.1 ≡ None)) }
{
    match Arc::try_clone(archive) {
        Ok(first) => match Arc::try_clone(archive) {
            Ok(second) => Some((first, second)),
            Err(_) => None,
        },
        Err(_) => None,
    }
}

fn both_of(alloc: Global, file: &File) -> Option<(Arc<Archive>, Arc<Archive>)>
    ensures { IfSome result (λ both. (arc_value both.0 ≡ None) × (arc_value both.1 ≡ None)) }
{
    match file.try_clone() {
        Ok(file) => match Arc::new(alloc, Archive::of_file(file)) {
            Ok(archive) => both(&archive),
            Err(_) => None,
        },
        Err(_) => None,
    }
}

impl<'a, R: Files<File = File>> Disk for FileDisk<'a, R> {
    ghost tells = { false };

    ghost told = { λ d. record { file = at_first []; past = []; faults = d.faults } };

    ghost stands_for = { λ _. [] };

    fn begin(&mut self, name: &Text) -> Result<(), Failed> {
        self.file = None;
        self.spoiled = None;
        self.archive = None;
        self.reason = None;
        match open_locked(self.rt, name.as_str()) {
            Ok(file) => {
                self.file = Some(file);
                Ok(())
            }
            Err(reason) => Err(self.fault(reason)),
        }
    }

    fn len(&mut self) -> Result<u64, Failed> {
        match len_of(&self.file) {
            Some(len) if len <= LONGEST => Ok(len),
            _ => Err(self.fault(Reason::NotRead)),
        }
    }

    fn read(&mut self, at: u64, room: &mut [u8]) -> Result<(), Failed> {
        if read_from(&self.file, at, room) {
            return Ok(());
        }
        Err(self.fault(Reason::NotRead))
    }

    fn archive(&mut self) -> Result<Arc<Archive>, Failed> {
        match archive_of(self.alloc, &self.file, &self.archive) {
            Some((archive, again)) => {
                self.archive = Some(again);
                Ok(archive)
            }
            None => Err(self.fault(Reason::Memory)),
        }
    }

    fn write_at(&mut self, at: u64, piece: &[u8]) -> Result<(), Failed> {
        if ends_within(at, piece.len()) && write_to(&self.file, at, piece) {
            return Ok(());
        }
        Err(self.fault(Reason::NotWritten))
    }

    fn sync(&mut self) -> Result<(), Failed> {
        if sync_to_disk(&self.file) {
            return Ok(());
        }
        self.spoiled = self.file.take();
        Err(self.fault(Reason::NotSynced))
    }
}
