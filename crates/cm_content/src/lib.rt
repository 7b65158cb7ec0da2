//! The renditions of documents, with what is looked up among them without going through all.
#![tactic(auto)]

ghost use Rattle.std.specs.Prelude.{◌≡◌};

pub mod renditions;
