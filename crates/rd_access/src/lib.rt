//! Readings of what is applied to an object: its policies, and its access control list.
#![tactic(auto)]

ghost use Rattle.std.specs.Prelude.{◌≡◌};

pub mod acl;
pub mod law;
pub mod policies;
