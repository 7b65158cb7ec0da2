//! What a caller may do at an object, which objects he reads, and what a reply shows of them.
//!
//! `look` has the laws that all of this follows from what he sees: each is the clause of a function that does nothing.
#![tactic(auto)]

ghost use Rattle.std.specs.Prelude.{◌≡◌};

pub mod address;
pub mod child;
pub mod level;
pub mod look;
pub mod path;
mod property;
pub mod read;
pub mod seen;
pub mod shown;
pub mod system;
pub mod tree;
mod value;
mod version;
