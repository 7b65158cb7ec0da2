//! Laws of the definitions alone: each kind of change keeps a repository well formed, and what is looked up for a caller follows from what he sees.
#![tactic(auto)]
