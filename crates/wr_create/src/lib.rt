//! Writes that make items and policies, and what they share with those that make relationships (CMIS 1.1, section 2.2.4).
#![tactic(auto)]

ghost use Rattle.std.specs.Prelude.{◌≡◌};

pub mod create_item;
pub mod create_policy;
pub mod making;
pub mod rules;
