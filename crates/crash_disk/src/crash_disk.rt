//! A disk that stops at a call by choice.
ghost use Rattle.std.specs.Prelude.{◌≡◌, ◌≢◌, ◌+◌, ◌<◌, ◌≤◌, ◌^◌, [], ◌∷◌, ◌++◌, length, true, take, drop, is_err, nat_lt, IfOk, OnOk, OnErr};
ghost use Rattle.std.specs.Arc.{arc_value};
ghost use Rattle.outside.specs.Memory.{counted};
ghost use Rattle.outside.specs.Outside.{HasCause, Rose};
ghost use Rattle.disk.specs.Disks.{IsUnchanged, Writes, Tears, FailsToWrite, Syncs, told_now};
ghost use Rattle.disk.specs.Calls.{at_first};
ghost use Rattle.disk.specs.Crashes.{MayLeave};
ghost use Rattle.crash_disk.specs.CrashDisks.{IsTornBy};

use crate::disk_file::DiskFile;
use archive::Archive;
use cm_base::text::Text;
use disk::{Disk, LONGEST, ends_within};
use outside::Failed;
use std::alloc::{AllocError, Global};
use std::marker::Model;
use std::sync::Arc;

/// A disk whose file, whatever its name, is in memory. Of the calls that write or sync, counted from 0, it stops at the one with the number
/// `stop`: that call fails, and so do all calls behind it. A write at which it stops may have written: the bytes `torn` then stand there in
/// place of its own, as many as it has room for. Before, a call fails only where it wants memory or the file would be too long.
#[derive(Drop)]
pub struct CrashDisk {
    alloc: Global,
    file: DiskFile,
    past: Vec<DiskFile>,
    stop: u64,
    torn: Vec<u8>,
    calls: u64,
    faults: u64,
}

impl Model for CrashDisk {
    ghost use Rattle.crash_disk.specs.CrashDisks.{CrashDiskTold};

    ghost Value = { CrashDiskTold };

    ghost view = { λ d. record {
      disk = record { file = d.file; past = d.past.items; faults = d.faults };
      stop = d.stop;
      torn = d.torn.items;
      calls = d.calls;
    } };
}

impl CrashDisk {
    /// A disk with this file, all of it synced, that stops at the call with this number. With `u64::MAX` it stops at none that there is.
    pub fn new(alloc: Global, file: &[u8], stop: u64, torn: &[u8]) -> Result<CrashDisk, AllocError>
        ensures { IfOk result (λ disk. disk ≡ record {
          disk = record { file = at_first file.now; past = []; faults = 0 };
          stop = stop;
          torn = torn.now;
          calls = 0;
        }) }
    {
        let file = DiskFile::at_first(alloc, file)?;
        let torn = Vec::from_slice(alloc, torn)?;
        Ok(CrashDisk {
            alloc,
            file,
            past: Vec::new(alloc),
            stop,
            torn,
            calls: 0,
            faults: 0,
        })
    }

    /// What a read gives.
    pub fn file(&self) -> &[u8]
        ensures { result.now ≡ self.now.disk.file.seen }
    {
        self.file.seen()
    }

    /// What the last sync that succeeded has made sure.
    pub fn synced(&self) -> &[u8]
        ensures { result.now ≡ self.now.disk.file.synced }
    {
        self.file.synced()
    }

    /// How many calls there were that write or sync.
    pub fn calls(&self) -> u64
        ensures { result ≡ self.now.calls }
    {
        self.calls
    }

    /// What a crash now leaves, by choice: where a byte may be any, it is that of the choice, and so is the end. Whatever a crash may leave
    /// is left for some choice, which is that file itself.
    pub fn left(&self, alloc: Global, choice: &[u8]) -> Result<Vec<u8>, AllocError>
        ensures may { IfOk result (λ left. MayLeave self.now.disk.file left.items) }
        ensures chosen { MayLeave self.now.disk.file choice.now → IfOk result (λ left. left.items ≡ choice.now) }
    {
        self.file.left(alloc, choice)
    }
}

// So many of the first bytes, or all where there are fewer.
fn front(bytes: &[u8], most: usize) -> &[u8]
    ensures { result.now ≡ take most bytes.now }
{
    if bytes.len() <= most {
        bytes
    } else {
        &bytes[..most]
    }
}

impl CrashDisk {
    // Whether it has stopped.
    fn has_stopped(&self) -> bool
        ensures { result ≡ nat_lt self.now.stop self.now.calls }
    {
        self.stop < self.calls
    }

    // Counts a call that writes or syncs, and says its number.
    fn count(&mut self) -> u64
        ensures call { result ≡ self.old.calls }
        ensures new { self.new ≡ record self.old { calls = counted self.old.calls } }
    {
        let call = self.calls;
        self.calls = call.saturating_add(1);
        call
    }

    // One more fault.
    fn fault(&mut self) -> Failed
        ensures stop { self.new.stop ≡ self.old.stop }
        ensures torn { self.new.torn ≡ self.old.torn }
        ensures calls { self.new.calls ≡ self.old.calls }
        ensures file { IsUnchanged self.old.disk self.new.disk }
        ensures later { self.old.disk.faults ≤ self.new.disk.faults }
        ensures rose { Rose self.old.disk.faults self.new.disk.faults }
    {
        self.faults = self.faults.saturating_add(1);
        Failed
    }

    // The next file, where there is memory to keep the one before.
    fn go_on(&mut self, next: DiskFile) -> Result<(), AllocError>
        ensures ok { OnOk result (self.new ≡ record self.old {
          disk = record {
            file = next;
            past = self.old.disk.past ++ self.old.disk.file ∷ [];
            faults = self.old.disk.faults;
          };
        }) }
        ensures err { OnErr result (self.new ≡ self.old) }
    {
        let before = self.file.copied(self.alloc)?;
        self.past.push(before)?;
        self.file = next;
        Ok(())
    }

    // Writes the piece, where there is memory for it.
    fn write_piece(&mut self, at: usize, piece: &[u8]) -> Result<(), AllocError>
        requires within { at ≤ length self.old.disk.file.seen }
        requires fits { at + length piece.now < 2 ^ 63 }
        ensures ok { OnOk result (Writes at piece.now self.old.disk self.new.disk) }
        ensures err { OnErr result (IsUnchanged self.old.disk self.new.disk) }
        ensures stop { self.new.stop ≡ self.old.stop }
        ensures torn { self.new.torn ≡ self.old.torn }
        ensures calls { self.new.calls ≡ self.old.calls }
        ensures faults { self.new.disk.faults ≡ self.old.disk.faults }
    {
        let next = self.file.written(self.alloc, at, piece, piece.len())?;
        self.go_on(next)?;
        Ok(())
    }

    // Cuts a write of so many bytes short, where there is memory for it.
    fn tear(&mut self, at: usize, len: usize) -> Result<(), AllocError>
        requires within { at ≤ length self.old.disk.file.seen }
        requires fits { at + len < 2 ^ 63 }
        ensures ok { OnOk result (Tears at len self.old.disk self.new.disk) }
        ensures by { OnOk result (IsTornBy self.old.torn at len self.old.disk.file self.new.disk.file) }
        ensures err { OnErr result (IsUnchanged self.old.disk self.new.disk) }
        ensures stop { self.new.stop ≡ self.old.stop }
        ensures torn { self.new.torn ≡ self.old.torn }
        ensures calls { self.new.calls ≡ self.old.calls }
        ensures faults { self.new.disk.faults ≡ self.old.disk.faults }
    {
        let next = self
            .file
            .written(self.alloc, at, front(&self.torn, len), len)?;
        self.go_on(next)?;
        Ok(())
    }

    // Syncs the file, where there is memory for it.
    fn sync_file(&mut self) -> Result<(), AllocError>
        ensures ok { OnOk result (Syncs self.old.disk self.new.disk) }
        ensures err { OnErr result (IsUnchanged self.old.disk self.new.disk) }
        ensures stop { self.new.stop ≡ self.old.stop }
        ensures torn { self.new.torn ≡ self.old.torn }
        ensures calls { self.new.calls ≡ self.old.calls }
        ensures faults { self.new.disk.faults ≡ self.old.disk.faults }
    {
        let next = DiskFile::at_first(self.alloc, self.file.seen())?;
        self.go_on(next)?;
        Ok(())
    }
}

impl Disk for CrashDisk {
    ghost tells = { true };

    ghost told = { λ d. d.disk };

    ghost stands_for = { λ _. [] };

    fn begin(&mut self, _name: &Text) -> Result<(), Failed>
        ensures file { IsUnchanged self.old.disk self.new.disk }
        ensures stopped { is_err result ≡ nat_lt self.old.stop self.old.calls }
        ensures cause { HasCause self.old.disk.faults self.new.disk.faults result }
        ensures stop { self.new.stop ≡ self.old.stop }
        ensures torn { self.new.torn ≡ self.old.torn }
        ensures calls { self.new.calls ≡ self.old.calls }
    {
        if self.has_stopped() {
            return Err(self.fault());
        }
        Ok(())
    }

    fn len(&mut self) -> Result<u64, Failed>
        ensures len { IfOk result (λ len. len ≡ length self.old.disk.file.seen) }
        ensures fits { IfOk result (λ len. len < 2 ^ 63) }
        ensures file { IsUnchanged self.old.disk self.new.disk }
        ensures stopped { self.old.stop < self.old.calls → is_err result ≡ true }
        ensures cause { HasCause self.old.disk.faults self.new.disk.faults result }
        ensures stop { self.new.stop ≡ self.old.stop }
        ensures torn { self.new.torn ≡ self.old.torn }
        ensures calls { self.new.calls ≡ self.old.calls }
    {
        let len = self.file.seen().len() as u64;
        if self.has_stopped() || len > LONGEST {
            return Err(self.fault());
        }
        Ok(len)
    }

    fn read(&mut self, at: u64, room: &mut [u8]) -> Result<(), Failed>
        requires { at + length room.old ≤ length self.old.disk.file.seen }
        ensures bytes { OnOk result (room.new ≡ take (length room.old) (drop at self.old.disk.file.seen)) }
        ensures file { IsUnchanged self.old.disk self.new.disk }
        ensures stopped { is_err result ≡ nat_lt self.old.stop self.old.calls }
        ensures cause { HasCause self.old.disk.faults self.new.disk.faults result }
        ensures stop { self.new.stop ≡ self.old.stop }
        ensures torn { self.new.torn ≡ self.old.torn }
        ensures calls { self.new.calls ≡ self.old.calls }
    {
        if self.has_stopped() {
            return Err(self.fault());
        }
        let at = at as usize;
        room.copy_from_slice(&self.file.seen()[at..at + room.len()]);
        Ok(())
    }

    fn archive(&mut self) -> Result<Arc<Archive>, Failed>
        ensures archive { IfOk result (λ a. arc_value a ≡ told_now true self.old.disk.file) }
        ensures file { IsUnchanged self.old.disk self.new.disk }
        ensures stopped { self.old.stop < self.old.calls → is_err result ≡ true }
        ensures cause { HasCause self.old.disk.faults self.new.disk.faults result }
        ensures stop { self.new.stop ≡ self.old.stop }
        ensures torn { self.new.torn ≡ self.old.torn }
        ensures calls { self.new.calls ≡ self.old.calls }
    {
        if self.has_stopped() {
            return Err(self.fault());
        }
        match archive_of(self.alloc, self.file.seen()) {
            Ok(archive) => Ok(archive),
            Err(_) => Err(self.fault()),
        }
    }

    fn write_at(&mut self, at: u64, piece: &[u8]) -> Result<(), Failed>
        requires { at ≤ length self.old.disk.file.seen }
        ensures ok { OnOk result (Writes at piece.now self.old.disk self.new.disk) }
        ensures err { OnErr result (FailsToWrite at (length piece.now) self.old.disk self.new.disk) }
        ensures by { OnErr result (IsTornBy self.old.torn at (length piece.now) self.old.disk.file self.new.disk.file) }
        ensures fits { OnOk result (at + length piece.now < 2 ^ 63) }
        ensures stops { self.old.stop ≤ self.old.calls → is_err result ≡ true }
        ensures torn_there_alone { self.old.calls ≢ self.old.stop
            → OnErr result (IsUnchanged self.old.disk self.new.disk) }
        ensures cause { HasCause self.old.disk.faults self.new.disk.faults result }
        ensures stop { self.new.stop ≡ self.old.stop }
        ensures torn { self.new.torn ≡ self.old.torn }
        ensures calls { self.new.calls ≡ counted self.old.calls }
    {
        let call = self.count();
        if call > self.stop || !ends_within(at, piece.len()) {
            return Err(self.fault());
        }
        if call == self.stop {
            let _ = self.tear(at as usize, piece.len());
            return Err(self.fault());
        }
        match self.write_piece(at as usize, piece) {
            Ok(()) => Ok(()),
            Err(_) => Err(self.fault()),
        }
    }

    fn sync(&mut self) -> Result<(), Failed>
        ensures ok { OnOk result (Syncs self.old.disk self.new.disk) }
        ensures err { OnErr result (IsUnchanged self.old.disk self.new.disk) }
        ensures stops { self.old.stop ≤ self.old.calls → is_err result ≡ true }
        ensures cause { HasCause self.old.disk.faults self.new.disk.faults result }
        ensures stop { self.new.stop ≡ self.old.stop }
        ensures torn { self.new.torn ≡ self.old.torn }
        ensures calls { self.new.calls ≡ counted self.old.calls }
    {
        let call = self.count();
        if call >= self.stop {
            return Err(self.fault());
        }
        match self.sync_file() {
            Ok(()) => Ok(()),
            Err(_) => Err(self.fault()),
        }
    }
}

// An archive of these bytes.
fn archive_of(alloc: Global, file: &[u8]) -> Result<Arc<Archive>, AllocError>
    ensures { IfOk result (λ a. arc_value a ≡ Some file.now) }
{
    let held = Arc::new(alloc, Vec::from_slice(alloc, file)?)?;
    let archive = Arc::new(alloc, Archive::in_memory(held))?;
    Ok(archive)
}
