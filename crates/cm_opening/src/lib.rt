//! How a repository begins: with the base types and the root folder alone (CMIS 1.1, sections 2.1.3 and 2.1.5.2).
#![tactic(auto)]

ghost use Rattle.std.specs.Prelude.{◌≡◌};

pub mod open;
