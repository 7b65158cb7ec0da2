//! The change log (CMIS 1.1, section 2.1.15).
#![tactic(auto)]

ghost use Rattle.std.specs.Prelude.{◌≡◌};

pub mod log;
