//! The relationships of an object (CMIS 1.1, sections 2.1.6 and 2.2.8.1).
#![tactic(auto)]

ghost use Rattle.std.specs.Prelude.{◌≡◌};

mod ends;
pub mod found;
