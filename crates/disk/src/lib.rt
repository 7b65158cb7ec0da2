//! A disk with one file: what a read gives, and what a crash may leave. Nothing here is real: a disk in memory tells its file,
//! so that contracts can speak of each moment at which a crash may come.
#![tactic(auto)]

mod disk;
mod mem_disk;

pub use disk::{Disk, LONGEST, ends_within};
pub use mem_disk::MemDisk;
