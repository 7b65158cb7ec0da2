//! Writes on types: making, changing and removing them (CMIS 1.1, sections 2.2.2.6 to 2.2.2.8).
#![tactic(auto)]

ghost use Rattle.std.specs.Prelude.{◌≡◌};

pub mod create_type;
pub mod delete_type;
mod retyped;
pub mod update_type;
mod used;
