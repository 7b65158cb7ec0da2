//! Tests of maps and sets; they stand beside their crate, since a crate with tests is proved twice.
#![tactic(auto)]

#[cfg(test)]
mod maps;
#[cfg(test)]
mod sets;
