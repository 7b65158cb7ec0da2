//! What files list, and why one is not taken.
ghost use Rattle.std.specs.Prelude.{◌≡◌};
ghost use Rattle.word_files.specs.declared.listed.FileStop.TheVariants.{Memory};
ghost use Rattle.word_files.specs.Lines.{listed};

use cm_base::user::Users;
use std::alloc::{AllocError, AllocFailed};

/// What a file lists.
#[derive(Clone, Copy, Debug, PartialEq, Eq)]
pub enum Listed {
    Users,
    Groups,
}

/// What the lines of a file are: users, or groups whose members are among these.
#[derive(Drop)]
pub enum Kind {
    Users,
    Groups(Users),
}

/// Why the files that words name do not stand for lists.
#[derive(Clone, Copy, Debug, PartialEq, Eq)]
pub enum FileStop {
    /// The file is not there, could not be read, is too long, or is no text.
    NotRead(Listed),
    /// Others than its owner may do something with it.
    Shared(Listed),
    /// Its line of this number, counted from 1, is not valid.
    Line(Listed, u64),
    /// There was no memory.
    Memory,
}

impl From<AllocError> for FileStop {
    ghost from_gives = { λ _ e. e ≡ Memory };

    fn from(_e: AllocError) -> FileStop {
        FileStop::Memory
    }
}

impl<T: Drop> From<AllocFailed<T>> for FileStop {
    ghost from_gives = { λ _ e. e ≡ Memory };

    fn from(_e: AllocFailed<T>) -> FileStop {
        FileStop::Memory
    }
}

impl Kind {
    /// What such a file lists.
    pub fn listed(&self) -> Listed
        ensures { result ≡ listed self.now }
    {
        match self {
            Kind::Users => Listed::Users,
            Kind::Groups(_) => Listed::Groups,
        }
    }
}
