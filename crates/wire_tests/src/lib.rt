//! Tests of what a program reaches with none of its inputs: sources, sinks and clocks in memory, JSON of any shape, the requests of a load, and
//! the reply for want of memory. They stand beside their crates, since a crate with tests is proved twice.
#![tactic(auto)]

#[cfg(test)]
mod loads;
#[cfg(test)]
mod memory;
#[cfg(test)]
mod replies;
#[cfg(test)]
mod values;
