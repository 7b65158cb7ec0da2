//! Type definitions that stand in JSON: what a text of a request asks of a type (CMIS 1.1, section 5.2.9).
#![tactic(auto)]

ghost use Rattle.std.specs.Prelude.{◌≡◌};

pub mod asked;
pub mod judge;
