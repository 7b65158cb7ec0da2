//! Laws of the types of a repository: one that is well formed stays so when a type is made, changed or removed.
#![tactic(auto)]
