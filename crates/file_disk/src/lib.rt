//! A disk over a file of the system. It keeps its count of faults, and tells nothing of content.
#![tactic(auto)]

mod file_disk;
mod folder;
mod reason;
mod system;

pub use file_disk::FileDisk;
pub use reason::Reason;
