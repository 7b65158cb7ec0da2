//! The calls that change the repository, as bytes: one encoding a call, its fields one after the other.
#![tactic(auto)]

pub mod access;
pub mod contents;
pub mod creates;
pub mod filings;
pub mod form;
pub mod removals;
pub mod type_calls;
pub mod updates;
pub mod versionings;
