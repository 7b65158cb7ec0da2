//! A disk whose first fault ends a server: it raises an alarm that the server's host and links heed.
#![tactic(auto)]

mod watched_disk;

pub use watched_disk::WatchedDisk;
