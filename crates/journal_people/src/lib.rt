//! The people of a journal over the repository: the names of its users and its groups, and the rules for those of a run.
#![tactic(auto)]

mod groups;
mod law;
mod names;
mod people;
mod rules;

pub use law::{groups_are_tested, nobody_is_lost, people_are_compared};
pub use people::People;
pub use rules::{MayGrow, MustStay};
