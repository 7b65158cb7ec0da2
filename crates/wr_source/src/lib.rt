//! Writes that make a document of another (CMIS 1.1, section 2.2.4.2).
#![tactic(auto)]

ghost use Rattle.std.specs.Prelude.{◌≡◌};

pub mod create_document_from_source;
mod rules;
mod taking;
pub mod template;
mod values;
