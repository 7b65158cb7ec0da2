//! Objects, lists and pages of them, and access control lists as JSON (CMIS 1.1, section 5.2.11), and what is sent of a text of JSON.
#![tactic(auto)]

ghost use Rattle.std.specs.Prelude.{◌≡◌};

pub mod access;
pub mod lists;
pub mod objects;
pub mod pages;
pub mod sent;
