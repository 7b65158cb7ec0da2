//! The definitions that a reader believes: the repository, its look-ups, access, well-formedness, and what a caller sees.
#![tactic(auto)]
