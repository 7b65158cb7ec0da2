//! The kernel's words: machines, entries, histories, versions and snapshots, and the desks at which writes are made.
//! A version is an opening and a journal, and its state is what the machine makes of the journal.
#![tactic(auto)]

mod clock;
mod desk;
mod entry;
mod keeper;
mod machine;
mod one;
mod shared;
mod snapshot;
mod version;

pub use clock::moment_of_word;
pub use desk::Desk;
pub use entry::Entry;
pub use keeper::{Keeper, Nowhere};
pub use machine::{Halt, Machine, Stop};
pub use one::{OneDesk, OnePass};
pub use shared::versions_are_shared;
pub use snapshot::Snapshot;
pub use version::Version;
