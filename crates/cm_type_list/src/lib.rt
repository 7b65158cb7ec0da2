//! The list of types: look-ups, chains, and what createType, updateType and deleteType make of it (CMIS 1.1, section 2.1.3).
#![tactic(auto)]

ghost use Rattle.std.specs.Prelude.{◌≡◌};

pub mod edit;
pub mod scan;
pub mod types;
