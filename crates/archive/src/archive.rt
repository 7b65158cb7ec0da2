//! The file in which contents stand.
ghost use Rattle.std.specs.Prelude.{◌≡◌, ◌+◌, ◌≤◌, length, take, drop, Some, None, IfSome, MatchOption, OnOk, is_some};
ghost use Rattle.std.specs.Arc.{arc_value};

use crate::unread::Unread;
use std::fs::File;
use std::marker::Model;
use std::os::unix::fs::FileExt;
use std::sync::Arc;

// Where the bytes of an archive are.
#[derive(Drop)]
enum Place {
    Memory(Arc<Vec<u8>>),
    File(File),
}

/// A file whose bytes stay as they are once they are written. It is seen as these bytes where it tells them: one in memory does, and a file of
/// the system doesn't.
#[derive(Drop)]
pub struct Archive {
    place: Place,
}

impl Model for Archive {
    ghost use Rattle.std.specs.Prelude.{ℕ, List};
    ghost use Rattle.std.specs.declared.option.Option.{Option};

    ghost Value = { Option (List ℕ) };

    ghost use Rattle.archive.specs.Archives.{told_of};

    ghost view = { λ a. told_of a.place };
}

impl Archive {
    /// These bytes, which are told.
    pub fn in_memory(bytes: Arc<Vec<u8>>) -> Archive
        ensures { result ≡ Some (arc_value bytes).items }
    {
        Archive {
            place: Place::Memory(bytes),
        }
    }

    /// A file of the system, which tells nothing.
    pub fn of_file(file: File) -> Archive
        ensures { result ≡ None }
    {
        Archive {
            place: Place::File(file),
        }
    }

    /// Whether it tells its bytes.
    pub fn tells(&self) -> bool
        ensures { result ≡ is_some self.now }
    {
        match &self.place {
            Place::Memory(_) => true,
            Place::File(_) => false,
        }
    }

    /// The bytes in memory, where it tells them.
    pub fn told(&self) -> Option<&Arc<Vec<u8>>>
        ensures { MatchOption result (self.now ≡ None) (λ a. self.now ≡ Some (arc_value a.now).items) }
    {
        match &self.place {
            Place::Memory(bytes) => Some(bytes),
            Place::File(_) => None,
        }
    }

    /// Fills room with the bytes from `at` on.
    pub fn read(&self, at: u64, room: &mut [u8]) -> Result<(), Unread>
        requires { IfSome self.now (λ all. at + length room.old ≤ length all) }
        ensures { OnOk result (IfSome self.now (λ all. room.new ≡ take (length room.old) (drop at all))) }
    {
        match &self.place {
            Place::Memory(bytes) => {
                let at = at as usize;
                room.copy_from_slice(&bytes.as_slice()[at..at + room.len()]);
                Ok(())
            }
            Place::File(file) => match file.read_exact_at(room, at) {
                Ok(()) => Ok(()),
                Err(_) => Err(Unread::at(at)),
            },
        }
    }
}
