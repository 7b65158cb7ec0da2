//! The arguments of a request: pairs of names and values, and what stands in them (CMIS 1.1, section 5.4).
#![tactic(auto)]

ghost use Rattle.std.specs.Prelude.{◌≡◌};

pub mod choice;
pub mod entries;
pub mod filter;
pub mod lists;
pub mod number;
pub mod pairs;
pub mod properties;
pub mod read;
pub mod words;
