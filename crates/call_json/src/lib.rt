//! Actions, renditions, updated objects, what is left of a tree, and the change log as JSON (CMIS 1.1, section 5.2.11).
#![tactic(auto)]

ghost use Rattle.std.specs.Prelude.{◌≡◌};

pub mod actions;
pub mod changes;
mod event;
pub mod left;
pub mod renditions;
pub mod updated;
