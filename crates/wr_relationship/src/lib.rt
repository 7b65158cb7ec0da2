//! The write that makes relationships (CMIS 1.1, section 2.2.4.4).
#![tactic(auto)]

ghost use Rattle.std.specs.Prelude.{◌≡◌};

pub mod create_relationship;
pub mod ends;
pub mod naming;
