//! What the runs of the program ask of a repository's calls, and what they say of a host.
#![tactic(auto)]

mod program;

pub use program::Program;
