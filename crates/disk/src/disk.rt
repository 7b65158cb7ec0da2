//! Disks: the file that one has open.
ghost use Rattle.std.specs.Prelude.{◌≡◌, ◌↔◌, ◌+◌, ◌<◌, ◌≤◌, ◌^◌, ℕ, List, ◌∷◌, Bool, IsTrue, length, take, drop, IfOk, OnOk, OnErr};
ghost use Rattle.std.specs.Arc.{arc_value};
ghost use Rattle.outside.specs.Outside.{HasCause};
ghost use Rattle.disk.specs.Disks.{DiskTold, IsUnchanged, Writes, FailsToWrite, Syncs, told_now};

use archive::Archive;
use cm_base::text::Text;
use outside::Failed;
use std::sync::Arc;

/// The most bytes that a file may have.
pub const LONGEST: u64 = (1 << 63) - 1;

/// Whether so many bytes from `at` on end within the longest file.
pub fn ends_within(at: u64, len: usize) -> bool
    ensures { IsTrue result ↔ (at + len < 2 ^ 63) }
{
    at <= LONGEST && len as u64 <= LONGEST - at
}

/// A disk. Between two syncs that succeed, a crash may leave any bytes in what was written and behind what was synced.
pub trait Disk {
    /// Whether it tells its file. A real one doesn't, and what is said of `told` below says nothing of it but its count.
    ghost tells: { Bool };

    /// Its file, the moments before, and its count of faults.
    ghost told: { Self → DiskTold };

    /// The references that it holds, by their ghost names. They stay the same ones.
    ghost stands_for: { Self → List ℕ };

    /// Opens the file of this name, and makes an empty one where there is none.
    fn begin(&mut self, name: &Text) -> Result<(), Failed>
        ensures file { IsTrue tells → IsUnchanged (told self.old) (told self.new) }
        ensures stands_for { stands_for self.new ≡ stands_for self.old }
        ensures cause { HasCause (told self.old).faults (told self.new).faults result };

    /// How many bytes a read may give.
    fn len(&mut self) -> Result<u64, Failed>
        ensures len { IsTrue tells → IfOk result (λ len. len ≡ length (told self.old).file.seen) }
        ensures fits { IfOk result (λ len. len < 2 ^ 63) }
        ensures file { IsTrue tells → IsUnchanged (told self.old) (told self.new) }
        ensures stands_for { stands_for self.new ≡ stands_for self.old }
        ensures cause { HasCause (told self.old).faults (told self.new).faults result };

    /// Fills room with the bytes from `at` on.
    fn read(&mut self, at: u64, room: &mut [u8]) -> Result<(), Failed>
        requires { IsTrue tells → at + length room.old ≤ length (told self.old).file.seen }
        ensures bytes { IsTrue tells
            → OnOk result (room.new ≡ take (length room.old) (drop at (told self.old).file.seen)) }
        ensures file { IsTrue tells → IsUnchanged (told self.old) (told self.new) }
        ensures stands_for { stands_for self.new ≡ stands_for self.old }
        ensures cause { HasCause (told self.old).faults (told self.new).faults result };

    /// Its file, for those who read it beside this disk: all bytes that it has now, where it tells them.
    fn archive(&mut self) -> Result<Arc<Archive>, Failed>
        ensures archive { IfOk result (λ a. arc_value a ≡ told_now tells (told self.old).file) }
        ensures file { IsTrue tells → IsUnchanged (told self.old) (told self.new) }
        ensures stands_for { stands_for self.new ≡ stands_for self.old }
        ensures cause { HasCause (told self.old).faults (told self.new).faults result };

    /// Writes the piece over what is there from `at` on, and past the end. One that fails may have written any bytes there.
    fn write_at(&mut self, at: u64, piece: &[u8]) -> Result<(), Failed>
        requires { IsTrue tells → at ≤ length (told self.old).file.seen }
        ensures ok { IsTrue tells → OnOk result (Writes at piece.now (told self.old) (told self.new)) }
        ensures err { IsTrue tells
            → OnErr result (FailsToWrite at (length piece.now) (told self.old) (told self.new)) }
        ensures fits { OnOk result (at + length piece.now < 2 ^ 63) }
        ensures stands_for { stands_for self.new ≡ stands_for self.old }
        ensures cause { HasCause (told self.old).faults (told self.new).faults result };

    /// After it, a crash leaves what a read gives. One that fails changes nothing.
    fn sync(&mut self) -> Result<(), Failed>
        ensures ok { IsTrue tells → OnOk result (Syncs (told self.old) (told self.new)) }
        ensures err { IsTrue tells → OnErr result (IsUnchanged (told self.old) (told self.new)) }
        ensures stands_for { stands_for self.new ≡ stands_for self.old }
        ensures cause { HasCause (told self.old).faults (told self.new).faults result };
}

impl<K: Disk> Disk for &mut K {
    ghost tells = { K.tells };

    ghost told = { λ d. K.told d.now };

    ghost stands_for = { λ d. d.ghost_name ∷ K.stands_for d.now };

    fn begin(&mut self, name: &Text) -> Result<(), Failed> {
        Disk::begin(&mut **self, name)
    }

    fn len(&mut self) -> Result<u64, Failed> {
        Disk::len(&mut **self)
    }

    fn read(&mut self, at: u64, room: &mut [u8]) -> Result<(), Failed> {
        Disk::read(&mut **self, at, room)
    }

    fn archive(&mut self) -> Result<Arc<Archive>, Failed> {
        Disk::archive(&mut **self)
    }

    fn write_at(&mut self, at: u64, piece: &[u8]) -> Result<(), Failed> {
        Disk::write_at(&mut **self, at, piece)
    }

    fn sync(&mut self) -> Result<(), Failed> {
        Disk::sync(&mut **self)
    }
}
