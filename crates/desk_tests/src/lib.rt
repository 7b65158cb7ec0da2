//! Tests of machines, desks and sessions; they stand beside their crates, since a crate with tests is proved twice.
#![tactic(auto)]

#[cfg(test)]
mod events;
#[cfg(test)]
mod gates;
#[cfg(test)]
mod locks;
#[cfg(test)]
mod moments;
#[cfg(test)]
mod passes;
#[cfg(test)]
mod replies;
#[cfg(test)]
mod sums;
