//! Laws of single writes, by their definitions alone: that one keeps what is well formed, where its own crate does not say so, and what of its refusal the moment decides.
//! They know no enum of writes, so that a further write does not touch them.
#![tactic(auto)]
