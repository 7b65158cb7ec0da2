//! A disk in memory.
ghost use Rattle.std.specs.Prelude.{◌≡◌, ◌+◌, ◌<◌, ◌≤◌, ◌^◌, [], ◌∷◌, ◌++◌, length, Some, true, take, drop, is_err, IsTrue, IfOk, OnOk, OnErr};
ghost use Rattle.std.specs.Arc.{arc_value};
ghost use Rattle.outside.specs.Memory.{is_listed, counted};
ghost use Rattle.outside.specs.Outside.{HasCause, Rose};
ghost use Rattle.disk.specs.Disks.{IsUnchanged, Writes, Tears, FailsToWrite, Syncs, overwritten};
ghost use Rattle.disk.specs.Calls.{at_first};

use crate::disk::{Disk, LONGEST, ends_within};
use archive::Archive;
use cm_base::text::Text;
use outside::Failed;
use std::alloc::{AllocError, Global};
use std::marker::Model;
use std::sync::Arc;

/// A call that has changed what a read gives, or what a crash may leave.
#[derive(Drop)]
pub(crate) enum Call {
    Wrote(usize, Vec<u8>),
    Tore(usize, usize),
    Synced,
}

/// A disk whose file, whatever its name, is in memory. It keeps all its calls, and what its file was at first. The calls whose numbers
/// are listed fail, of all kinds together; a write of them counts as written. Others fail only where they want memory, which is a fault too.
#[derive(Drop)]
pub struct MemDisk {
    alloc: Global,
    first: Vec<u8>,
    calls: Vec<Call>,
    file: Vec<u8>,
    failing: Vec<u64>,
    asked: u64,
    faults: u64,
}

impl Model for MemDisk {
    ghost use Rattle.std.specs.Prelude.{◌≡◌};
    ghost use Rattle.disk.specs.Calls.{MemDiskTold, at_first, replayed, before_each};

    ghost Value = { MemDiskTold };

    ghost view = { λ d. record {
      disk = record {
        file = replayed (at_first d.first.items) d.calls.items;
        past = before_each (at_first d.first.items) d.calls.items;
        faults = d.faults;
      };
      failing = d.failing.items;
      calls = d.asked;
    } };

    ghost invariant = { λ d. d.file.items ≡ (replayed (at_first d.first.items) d.calls.items).seen };
}

impl MemDisk {
    /// A disk with this file, all of it synced, whose calls with these numbers fail, counted from 0.
    pub fn new(alloc: Global, file: &[u8], failing: &[u64]) -> Result<MemDisk, AllocError>
        ensures { IfOk result (λ disk. disk ≡ record {
          disk = record { file = at_first file.now; past = []; faults = 0 };
          failing = failing.now;
          calls = 0;
        }) }
    {
        let first = Vec::from_slice(alloc, file)?;
        let file = Vec::from_slice(alloc, file)?;
        let failing = Vec::from_slice(alloc, failing)?;
        Ok(MemDisk {
            alloc,
            first,
            calls: Vec::new(alloc),
            file,
            failing,
            asked: 0,
            faults: 0,
        })
    }

    /// What a read gives.
    pub fn file(&self) -> &[u8]
        ensures { result.now ≡ self.now.disk.file.seen }
    {
        &self.file
    }
}

// The file with the piece written over what is there from `at` on.
fn overwritten_file(
    alloc: Global,
    file: &[u8],
    at: usize,
    piece: &[u8],
) -> Result<Vec<u8>, AllocError>
    requires { at ≤ length file.now }
    ensures { IfOk result (λ new. new.items ≡ overwritten file.now at piece.now) }
{
    let mut new = Vec::from_slice(alloc, &file[..at])?;
    new.extend_from_slice(piece)?;
    if piece.len() < file.len() - at {
        new.extend_from_slice(&file[at + piece.len()..])?;
    }
    Ok(new)
}

// Writes the piece, and keeps the call.
fn write_and_keep(
    alloc: Global,
    file: &mut Vec<u8>,
    calls: &mut Vec<Call>,
    at: usize,
    piece: &[u8],
) -> Result<(), AllocError>
    requires { at ≤ length file.old.items }
    ensures file { OnOk result (file.new.items ≡ overwritten file.old.items at piece.now) }
    ensures call { OnOk result ((kept : _) × (kept.items ≡ piece.now)
        × (calls.new.items ≡ calls.old.items ++ Call.Wrote at kept ∷ [])) }
    ensures err { OnErr result ((file.new.items ≡ file.old.items) × (calls.new.items ≡ calls.old.items)) }
{
    let new = overwritten_file(alloc, file, at, piece)?;
    let kept = Vec::from_slice(alloc, piece)?;
    calls.push(Call::Wrote(at, kept))?;
    *file = new;
    Ok(())
}

impl MemDisk {
    // Counts the call, and says whether it is to fail, which is counted too.
    fn fails(&mut self) -> bool
        ensures fails { result ≡ is_listed self.old.failing self.old.calls }
        ensures calls { self.new.calls ≡ counted self.old.calls }
        ensures failing { self.new.failing ≡ self.old.failing }
        ensures file { IsUnchanged self.old.disk self.new.disk }
        ensures later { self.old.disk.faults ≤ self.new.disk.faults }
        ensures rose { IsTrue result → Rose self.old.disk.faults self.new.disk.faults }
    {
        let call = self.asked;
        self.asked = call.saturating_add(1);
        let listed = self.failing.as_slice().contains(&call);
        if listed {
            self.faults = self.faults.saturating_add(1);
        }
        listed
    }

    // One more fault.
    fn fault(&mut self) -> Failed
        ensures calls { self.new.calls ≡ self.old.calls }
        ensures failing { self.new.failing ≡ self.old.failing }
        ensures file { IsUnchanged self.old.disk self.new.disk }
        ensures later { self.old.disk.faults ≤ self.new.disk.faults }
        ensures rose { Rose self.old.disk.faults self.new.disk.faults }
    {
        self.faults = self.faults.saturating_add(1);
        Failed
    }

    // Writes the piece, where there is memory for it.
    fn write_piece(&mut self, at: usize, piece: &[u8]) -> Result<(), AllocError>
        requires { at ≤ length self.old.disk.file.seen }
        ensures ok { OnOk result (Writes at piece.now self.old.disk self.new.disk) }
        ensures err { OnErr result (IsUnchanged self.old.disk self.new.disk) }
        ensures calls { self.new.calls ≡ self.old.calls }
        ensures failing { self.new.failing ≡ self.old.failing }
        ensures faults { self.new.disk.faults ≡ self.old.disk.faults }
    {
        write_and_keep(self.alloc, &mut self.file, &mut self.calls, at, piece)?;
        Ok(())
    }

    // Keeps that a write was cut short, where there is memory for it. A read gives what it gave before.
    fn tear(&mut self, at: usize, len: usize) -> Result<(), AllocError>
        ensures ok { OnOk result (Tears at len self.old.disk self.new.disk) }
        ensures err { OnErr result (IsUnchanged self.old.disk self.new.disk) }
        ensures calls { self.new.calls ≡ self.old.calls }
        ensures failing { self.new.failing ≡ self.old.failing }
        ensures faults { self.new.disk.faults ≡ self.old.disk.faults }
    {
        self.calls.push(Call::Tore(at, len))?;
        Ok(())
    }

    // Keeps a sync, where there is memory for it.
    fn keep_sync(&mut self) -> Result<(), AllocError>
        ensures ok { OnOk result (Syncs self.old.disk self.new.disk) }
        ensures err { OnErr result (IsUnchanged self.old.disk self.new.disk) }
        ensures calls { self.new.calls ≡ self.old.calls }
        ensures failing { self.new.failing ≡ self.old.failing }
        ensures faults { self.new.disk.faults ≡ self.old.disk.faults }
    {
        self.calls.push(Call::Synced)?;
        Ok(())
    }
}

impl Disk for MemDisk {
    ghost tells = { true };

    ghost told = { λ d. d.disk };

    ghost stands_for = { λ _. [] };

    fn begin(&mut self, _name: &Text) -> Result<(), Failed>
        ensures file { IsUnchanged self.old.disk self.new.disk }
        ensures fails { is_err result ≡ is_listed self.old.failing self.old.calls }
        ensures cause { HasCause self.old.disk.faults self.new.disk.faults result }
        ensures calls { self.new.calls ≡ counted self.old.calls }
        ensures failing { self.new.failing ≡ self.old.failing }
    {
        if self.fails() { Err(Failed) } else { Ok(()) }
    }

    fn len(&mut self) -> Result<u64, Failed>
        ensures len { IfOk result (λ len. len ≡ length self.old.disk.file.seen) }
        ensures fits { IfOk result (λ len. len < 2 ^ 63) }
        ensures file { IsUnchanged self.old.disk self.new.disk }
        ensures fails { is_listed self.old.failing self.old.calls ≡ true → is_err result ≡ true }
        ensures cause { HasCause self.old.disk.faults self.new.disk.faults result }
        ensures calls { self.new.calls ≡ counted self.old.calls }
        ensures failing { self.new.failing ≡ self.old.failing }
    {
        if self.fails() {
            return Err(Failed);
        }
        let len = self.file.len() as u64;
        if len > LONGEST {
            return Err(self.fault());
        }
        Ok(len)
    }

    fn read(&mut self, at: u64, room: &mut [u8]) -> Result<(), Failed>
        requires { at + length room.old ≤ length self.old.disk.file.seen }
        ensures bytes { OnOk result (room.new ≡ take (length room.old) (drop at self.old.disk.file.seen)) }
        ensures file { IsUnchanged self.old.disk self.new.disk }
        ensures fails { is_err result ≡ is_listed self.old.failing self.old.calls }
        ensures cause { HasCause self.old.disk.faults self.new.disk.faults result }
        ensures calls { self.new.calls ≡ counted self.old.calls }
        ensures failing { self.new.failing ≡ self.old.failing }
    {
        if self.fails() {
            return Err(Failed);
        }
        let at = at as usize;
        room.copy_from_slice(&self.file[at..at + room.len()]);
        Ok(())
    }

    fn archive(&mut self) -> Result<Arc<Archive>, Failed>
        ensures archive { IfOk result (λ a. arc_value a ≡ Some self.old.disk.file.seen) }
        ensures file { IsUnchanged self.old.disk self.new.disk }
        ensures fails { is_listed self.old.failing self.old.calls ≡ true → is_err result ≡ true }
        ensures cause { HasCause self.old.disk.faults self.new.disk.faults result }
        ensures calls { self.new.calls ≡ counted self.old.calls }
        ensures failing { self.new.failing ≡ self.old.failing }
    {
        if self.fails() {
            return Err(Failed);
        }
        match archived(self.alloc, &self.file) {
            Ok(archive) => Ok(archive),
            Err(_) => Err(self.fault()),
        }
    }

    fn write_at(&mut self, at: u64, piece: &[u8]) -> Result<(), Failed>
        requires { at ≤ length self.old.disk.file.seen }
        ensures ok { OnOk result (Writes at piece.now self.old.disk self.new.disk) }
        ensures err { OnErr result (FailsToWrite at (length piece.now) self.old.disk self.new.disk) }
        ensures fits { OnOk result (at + length piece.now < 2 ^ 63) }
        ensures fails { is_listed self.old.failing self.old.calls ≡ true → is_err result ≡ true }
        ensures cause { HasCause self.old.disk.faults self.new.disk.faults result }
        ensures calls { self.new.calls ≡ counted self.old.calls }
        ensures failing { self.new.failing ≡ self.old.failing }
    {
        if self.fails() {
            let _ = self.tear(at as usize, piece.len());
            return Err(Failed);
        }
        if !ends_within(at, piece.len()) {
            return Err(self.fault());
        }
        match self.write_piece(at as usize, piece) {
            Ok(()) => Ok(()),
            Err(_) => Err(self.fault()),
        }
    }

    fn sync(&mut self) -> Result<(), Failed>
        ensures ok { OnOk result (Syncs self.old.disk self.new.disk) }
        ensures err { OnErr result (IsUnchanged self.old.disk self.new.disk) }
        ensures fails { is_listed self.old.failing self.old.calls ≡ true → is_err result ≡ true }
        ensures cause { HasCause self.old.disk.faults self.new.disk.faults result }
        ensures calls { self.new.calls ≡ counted self.old.calls }
        ensures failing { self.new.failing ≡ self.old.failing }
    {
        if self.fails() {
            return Err(Failed);
        }
        match self.keep_sync() {
            Ok(()) => Ok(()),
            Err(_) => Err(self.fault()),
        }
    }
}

// A copy of these bytes.
fn archived(alloc: Global, file: &[u8]) -> Result<Arc<Archive>, AllocError>
    ensures { IfOk result (λ a. arc_value a ≡ Some file.now) }
{
    let bytes = Vec::from_slice(alloc, file)?;
    let bytes = Arc::new(alloc, bytes)?;
    let archive = Arc::new(alloc, Archive::in_memory(bytes))?;
    Ok(archive)
}
