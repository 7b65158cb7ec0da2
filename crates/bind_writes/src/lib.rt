//! The arguments of calls that write, from the forms of requests (CMIS 1.1, section 5.4.4).
#![tactic(auto)]

ghost use Rattle.std.specs.Prelude.{◌≡◌};

pub mod acl;
pub mod bulk;
mod bulk_objects;
pub mod content;
pub mod create;
pub mod create_document;
pub mod create_folder;
pub mod delete;
pub mod delete_tree;
pub mod filing;
pub mod policy;
pub mod rendition;
pub mod source;
pub mod type_change;
pub mod update;
pub mod versioning;
mod words;
