//! Writes on access control lists: their change (CMIS 1.1, section 2.2.10.1).
#![tactic(auto)]

ghost use Rattle.std.specs.Prelude.{◌≡◌};

pub mod apply_acl;
