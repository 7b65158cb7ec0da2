//! Version series of documents (CMIS 1.1, section 2.1.13): how one begins, is checked out and in, and takes another name.
#![tactic(auto)]

ghost use Rattle.std.specs.Prelude.{◌≡◌};

pub mod begin;
pub mod label;
pub mod working;
