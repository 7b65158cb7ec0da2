//! The payloads of the repository's journal as bytes: its root, the entries, and the people that hold from one of its places on.
#![tactic(auto)]

pub mod entry;
pub mod form;
pub mod journal;
pub mod laws;
pub mod people;
pub mod record;
pub mod root;
