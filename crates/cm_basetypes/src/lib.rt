//! The types with which a repository begins, with their properties (CMIS 1.1, sections 2.1.3, 2.1.4 and 2.1.16).
#![tactic(auto)]

ghost use Rattle.std.specs.Prelude.{◌≡◌};

pub mod base_types;
pub mod props;
