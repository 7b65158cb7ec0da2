//! Writes on applied policies: applying one and taking it off (CMIS 1.1, section 2.2.9).
#![tactic(auto)]

ghost use Rattle.std.specs.Prelude.{◌≡◌};

mod applied;
pub mod apply_policy;
pub mod remove_policy;
