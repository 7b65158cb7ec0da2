//! Tests of the grammar of queries and of the order of values; they stand beside their crates, since a crate with tests is proved twice.
#![tactic(auto)]

#[cfg(test)]
mod laws;
#[cfg(test)]
mod printed;
#[cfg(test)]
mod values;
