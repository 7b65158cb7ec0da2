//! The actions that a caller is allowed on an object (CMIS 1.1, section 2.2.4.7).
#![tactic(auto)]

ghost use Rattle.std.specs.Prelude.{◌≡◌};

pub mod allowed;
pub mod grounds;
pub mod law;
