//! A file on a disk that crashes: what a read gives, what was synced, and where it was written since.
ghost use Rattle.std.specs.Prelude.{◌≡◌, ◌+◌, ◌<◌, ◌≤◌, ◌^◌, ◌∷◌, ◌&&◌, ℕ, length, nat_le, nat_lt, IfOk};
ghost use Rattle.disk.specs.Disks.{Torn, overwritten};
ghost use Rattle.disk.specs.Calls.{at_first};
ghost use Rattle.disk.specs.Crashes.{MayLeave, is_within};
ghost use Rattle.crash_disk.specs.Leaving.{Stays};

use std::alloc::{AllocError, Global};
use std::cmp::{max, min};
use std::marker::Model;

/// A range of a file: its place and its length.
type Range = (usize, usize);

/// A file, and the farthest end of what was synced and of what was written since.
#[derive(Drop)]
pub(crate) struct DiskFile {
    seen: Vec<u8>,
    synced: Vec<u8>,
    written: Vec<Range>,
    end: usize,
}

impl Model for DiskFile {
    ghost use Rattle.std.specs.Prelude.{◌≡◌, length};
    ghost use Rattle.disk.specs.Disks.{FileTold};
    ghost use Rattle.disk.specs.Crashes.{farthest};

    ghost Value = { FileTold };

    ghost view = { λ f. record { seen = f.seen.items; synced = f.synced.items; written = f.written.items } };

    ghost invariant = { λ f. f.end ≡ farthest (length f.synced.items) f.written.items };
}

// The bytes with the piece written over what is there from `at` on.
fn with_piece(alloc: Global, bytes: &[u8], at: usize, piece: &[u8]) -> Result<Vec<u8>, AllocError>
    requires within { at ≤ length bytes.now }
    requires fits { at + length piece.now < 2 ^ 63 }
    ensures { IfOk result (λ new. new.items ≡ overwritten bytes.now at piece.now) }
{
    let behind = min(at + piece.len(), bytes.len());
    let mut new = Vec::from_slice(alloc, &bytes[..at])?;
    new.extend_from_slice(piece)?;
    new.extend_from_slice(&bytes[behind..])?;
    Ok(new)
}

// The ranges with one more, which is the first.
fn with_range(alloc: Global, written: &[Range], range: Range) -> Result<Vec<Range>, AllocError>
    ensures { IfOk result (λ new. new.items ≡ range ∷ written.now) }
{
    let mut new = Vec::new(alloc);
    new.push(range)?;
    new.extend_from_slice(written)?;
    Ok(new)
}

// Whether the place lies in the range.
fn is_in(range: &Range, place: usize) -> bool
    ensures { result ≡ (nat_le range.now.0 place && nat_lt place (range.now.0 + range.now.1)) }
{
    range.0 <= place && place - range.0 < range.1
}

// Whether the place lies in one of the ranges.
fn is_in_one(written: &[Range], place: usize) -> bool
    ensures { result ≡ is_within written.now place }
{
    written.iter().any(|range| is_in(range, place))
}

// These bytes as far as the end, or lengthened by those that were synced.
fn fitted(alloc: Global, synced: &[u8], end: usize, choice: &[u8]) -> Result<Vec<u8>, AllocError>
    requires { length synced.now ≤ end }
    ensures no_shorter { IfOk result (λ left. length synced.now ≤ length left.items) }
    ensures no_longer { IfOk result (λ left. length left.items ≤ end) }
    ensures same { length synced.now ≤ length choice.now → length choice.now ≤ end
        → IfOk result (λ left. left.items ≡ choice.now) }
{
    let mut left = Vec::from_slice(alloc, &choice[..min(end, choice.len())])?;
    if choice.len() < synced.len() {
        left.extend_from_slice(&synced[choice.len()..])?;
    }
    Ok(left)
}

// Writes each byte that was synced and not written since.
fn restore(synced: &[u8], written: &[Range], left: &mut [u8])
    requires { length synced.now ≤ length left.old }
    ensures len { length left.new ≡ length left.old }
    ensures stays { Stays synced.now written.now (length synced.now) left.new }
    ensures same { Stays synced.now written.now (length synced.now) left.old → left.new ≡ left.old }
{
    for place in 0..synced.len() {
        if !is_in_one(written, place) {
            left[place] = synced[place];
        }
    }
}

impl DiskFile {
    // A file all of which is synced.
    pub(crate) fn at_first(alloc: Global, bytes: &[u8]) -> Result<DiskFile, AllocError>
        ensures { IfOk result (λ file. file ≡ at_first bytes.now) }
    {
        let seen = Vec::from_slice(alloc, bytes)?;
        let synced = Vec::from_slice(alloc, bytes)?;
        Ok(DiskFile {
            seen,
            synced,
            written: Vec::new(alloc),
            end: bytes.len(),
        })
    }

    // A copy.
    pub(crate) fn copied(&self, alloc: Global) -> Result<DiskFile, AllocError>
        ensures { IfOk result (λ file. file ≡ self.now) }
    {
        let seen = Vec::from_slice(alloc, &self.seen)?;
        let synced = Vec::from_slice(alloc, &self.synced)?;
        let written = Vec::from_slice(alloc, &self.written)?;
        Ok(DiskFile {
            seen,
            synced,
            written,
            end: self.end,
        })
    }

    // What a read gives.
    pub(crate) fn seen(&self) -> &[u8]
        ensures { result.now ≡ self.now.seen }
    {
        &self.seen
    }

    // What was synced.
    pub(crate) fn synced(&self) -> &[u8]
        ensures { result.now ≡ self.now.synced }
    {
        &self.synced
    }

    // The file with the piece written over what is there from `at` on, where so many bytes count as written.
    pub(crate) fn written(
        &self,
        alloc: Global,
        at: usize,
        piece: &[u8],
        len: usize,
    ) -> Result<DiskFile, AllocError>
        requires within { at ≤ length self.now.seen }
        requires piece { length piece.now ≤ len }
        requires fits { at + len < 2 ^ 63 }
        ensures file { IfOk result (λ file. file ≡ record {
          seen = overwritten self.now.seen at piece.now;
          synced = self.now.synced;
          written = (at, len) ∷ self.now.written;
        }) }
        ensures torn { IfOk result (λ file. Torn at len self.now.seen file.seen) }
    {
        let seen = with_piece(alloc, &self.seen, at, piece)?;
        let synced = Vec::from_slice(alloc, &self.synced)?;
        let written = with_range(alloc, &self.written, (at, len))?;
        Ok(DiskFile {
            seen,
            synced,
            written,
            end: max(at + len, self.end),
        })
    }

    // What a crash leaves, where the bytes that are free, and where it ends, are those of the choice.
    pub(crate) fn left(&self, alloc: Global, choice: &[u8]) -> Result<Vec<u8>, AllocError>
        ensures may { IfOk result (λ left. MayLeave self.now left.items) }
        ensures chosen { MayLeave self.now choice.now → IfOk result (λ left. left.items ≡ choice.now) }
    {
        let mut left = fitted(alloc, &self.synced, self.end, choice)?;
        restore(&self.synced, &self.written, &mut left);
        Ok(left)
    }
}
