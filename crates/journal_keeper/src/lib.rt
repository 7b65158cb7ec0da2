//! A keeper over a journal in a file: each entry stands there as its encoding, behind the payloads of before.
#![tactic(auto)]

mod encoding;
mod entry_code;
mod keeper;
mod lost;
mod store;

pub use entry_code::EntryCode;
pub use keeper::JournalKeeper;
pub use lost::Lost;
pub use store::Store;
