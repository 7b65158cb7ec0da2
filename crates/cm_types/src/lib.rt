//! Definitions of types and properties, and the list of types (CMIS 1.1, section 2.1.3).
#![tactic(auto)]

ghost use Rattle.std.specs.Prelude.{◌≡◌};

pub mod definition;
pub mod fault;
pub mod given;
pub mod property;
pub mod request;
pub mod together;
