//! A law: threads may share a repository's state. It is shown level by level, since it is found at no one step.
#![tactic(auto)]

mod shared;

pub use shared::states_are_shared;
