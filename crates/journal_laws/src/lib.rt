//! Laws of journals that go on from run to run: each as a clause of a function that does nothing. What a run leaves in a file is, for the next start,
//! what stood there as it began and behind it the run's entries; and the next run begins with the state to which they lead.
#![tactic(auto)]

pub mod replays;
pub mod runs;
