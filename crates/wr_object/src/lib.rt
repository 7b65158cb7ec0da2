//! Writes on objects: creating, changing, filing and deleting.
#![tactic(auto)]

ghost use Rattle.std.specs.Prelude.{◌≡◌};

pub mod asked;
pub mod create_document;
pub mod create_folder;
pub mod document_rules;
mod folder_rules;
pub mod making;
pub mod making_document;
pub mod new_document;
