//! Tests of payloads with bytes from outside. They stand beside their crates, since a crate with tests is proved twice.
#![tactic(auto)]

#[cfg(test)]
mod payloads;
