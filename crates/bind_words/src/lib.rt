//! The table of actions and selectors (CMIS 1.1, sections 5.4.2 and 5.4.3).
#![tactic(auto)]

ghost use Rattle.std.specs.Prelude.{◌≡◌};

pub mod words;
