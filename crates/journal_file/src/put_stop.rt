//! Why payloads aren't put.

use crate::journal::Journal;
use disk::Disk;

/// Why payloads aren't put.
#[derive(Drop)]
pub enum PutStop<K: Disk> {
    /// The disk has failed, and its file has to be opened again. It stands for the payloads from before, or for these and all the new ones.
    Fault(K),
    /// The journal and its disk are as before.
    Memory(Journal<K>),
}
