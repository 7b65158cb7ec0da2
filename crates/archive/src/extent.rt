//! A run of bytes in an archive.
ghost use Rattle.std.specs.Prelude.{◌≡◌, ◌+◌, ◌≤◌, ℕ, length, take, drop, slice_range, Some, IfSome, IfOk, OnOk, IsTrue, is_some, not, ◌&&◌};
ghost use Rattle.archive.specs.Archives.{shaped};
ghost use Rattle.archive.specs.Extents.{Stands, IsWithin};

use crate::archive::Archive;
use crate::shape::{Shape, Shaped};
use crate::unread::Unread;
use std::alloc::AllocError;
use std::marker::Model;
use std::snapshot::Snapshot;
use std::sync::Arc;

/// Bytes that stand in an archive from a place on. They are not in memory, and are seen as what they are.
#[derive(Drop)]
pub struct Extent {
    archive: Arc<Archive>,
    place: u64,
    len: u64,
    shows: Snapshot<Shaped>,
}

impl Model for Extent {
    ghost use Rattle.std.specs.Prelude.{ℕ, List};

    ghost Value = { List ℕ };

    ghost use Rattle.archive.specs.Extents.{Stands};

    ghost view = { λ e. e.shows.value };

    ghost invariant = { λ e. Stands e.archive.value e.place e.len e.shows.value };
}

impl Extent {
    /// These bytes, which stand in the archive from this place on.
    pub fn of(archive: Arc<Archive>, place: u64, bytes: Arc<Vec<u8>>) -> Extent
        requires { Stands archive.value place (length bytes.value.items) bytes.value.items }
        ensures { result ≡ bytes.value.items }
    {
        let len = bytes.len() as u64;
        let shaped = Shaped {
            shape: Shape::Known(bytes),
        };
        Extent {
            archive,
            place,
            len,
            shows: Snapshot::of(&shaped),
        }
    }

    /// A part of bytes that stand in the archive from this place on.
    pub fn of_part(
        archive: Arc<Archive>,
        place: u64,
        whole: &Arc<Vec<u8>>,
        from: usize,
        to: usize,
    ) -> Result<Extent, AllocError>
        requires stands { Stands archive.value place (length whole.now.value.items) whole.now.value.items }
        requires ordered { from ≤ to }
        requires within { to ≤ length whole.now.value.items }
        ensures { IfOk result (λ e. e ≡ slice_range whole.now.value.items from to) }
    {
        let _len = whole.len();
        let shaped = Shaped {
            shape: Shape::Part(Arc::try_clone(whole)?, from, to),
        };
        Ok(Extent {
            archive,
            place: place + from as u64,
            len: (to - from) as u64,
            shows: Snapshot::of(&shaped),
        })
    }

    /// What stands in the archive from this place on, so many bytes of it. None is read, and of an archive that tells nothing only their number is known.
    pub fn at(archive: Arc<Archive>, place: u64, len: u64) -> Result<Extent, AllocError>
        requires { IsWithin archive.value place len }
        ensures bytes { IfOk result (λ e. IfSome archive.value (λ all. e ≡ take len (drop place all))) }
        ensures len { IfOk result (λ e. length e ≡ len) }
    {
        let shaped = Shaped {
            shape: shape_at(&archive, place, len)?,
        };
        Ok(Extent {
            archive,
            place,
            len,
            shows: Snapshot::of(&shaped),
        })
    }

    /// The number of bytes.
    pub fn len(&self) -> u64
        ensures { result ≡ length self.now }
    {
        self.len
    }

    /// Fills room with the bytes from `from` on. Where they are to be known, an archive that doesn't tell them is a fault.
    pub fn read(&self, known: bool, from: u64, room: &mut [u8]) -> Result<(), Unread>
        requires { from + length room.old ≤ length self.now }
        ensures { IsTrue known → OnOk result (room.new ≡ take (length room.old) (drop from self.now)) }
    {
        if is_unknown(known, &self.archive) {
            return Err(Unread::at(self.place));
        }
        match self.archive.read(self.place + from, room) {
            Ok(()) => Ok(()),
            Err(unread) => Err(unread),
        }
    }
}

// Whether the bytes are to be known, and the archive doesn't tell them.
fn is_unknown(known: bool, archive: &Archive) -> bool
    ensures { result ≡ (known && not (is_some archive.now)) }
{
    known && !archive.tells()
}

// What is known of so many bytes from a place on.
fn shape_at(archive: &Archive, place: u64, len: u64) -> Result<Shape, AllocError>
    requires { IsWithin archive.now place len }
    ensures bytes { IfOk result (λ s. IfSome archive.now (λ all. shaped s ≡ take len (drop place all))) }
    ensures len { IfOk result (λ s. length (shaped s) ≡ len) }
{
    match archive.told() {
        Some(all) => {
            let from = place as usize;
            Ok(Shape::Part(Arc::try_clone(all)?, from, from + len as usize))
        }
        None => Ok(Shape::Unknown(len)),
    }
}
