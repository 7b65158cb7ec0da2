//! A disk in memory that crashes by choice: it stops at a call that is chosen, and then hands over what a crash leaves, where each
//! byte that may be any is chosen too.
#![tactic(auto)]

mod crash_disk;
mod disk_file;

pub use crash_disk::CrashDisk;
