//! Writes on the content of documents: setting it, appending to it, and deleting it (CMIS 1.1, sections 2.2.4.18 to 2.2.4.20).
#![tactic(auto)]

ghost use Rattle.std.specs.Prelude.{◌≡◌};

pub mod append_content;
pub mod delete_content;
mod document;
mod pieces;
pub mod set_content;
