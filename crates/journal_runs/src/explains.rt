//! Why a disk failed.

use disk::MemDisk;
use file_disk::FileDisk;
use keep_status::{WhyUnkept, why_of};
use std::fs::File;
use std::rt::Files;

/// A disk that explains why a journal on it can't be kept.
pub trait Explains {
    /// Why the first of its calls that failed did so, since its file was begun.
    fn why(&self) -> WhyUnkept;
}

impl<K: Explains> Explains for &mut K {
    fn why(&self) -> WhyUnkept {
        K::why(&**self)
    }
}

impl Explains for MemDisk {
    fn why(&self) -> WhyUnkept {
        WhyUnkept::Other
    }
}

impl<'a, R: Files<File = File>> Explains for FileDisk<'a, R> {
    fn why(&self) -> WhyUnkept {
        why_of(self.reason())
    }
}
