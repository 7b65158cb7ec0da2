//! Tests of a journal over a disk that crashes by choice. They stand beside their crates, since a crate with tests is proved twice.
#![tactic(auto)]

#[cfg(test)]
mod crashes;
