//! The arguments of calls that read, from the addresses of requests (CMIS 1.1, section 5.4.4).
#![tactic(auto)]

ghost use Rattle.std.specs.Prelude.{◌≡◌};

pub mod access;
pub mod actions;
pub mod children;
pub mod documents;
pub mod filter;
pub mod includes;
pub mod info;
pub mod lists;
pub mod log;
pub mod objects;
pub mod options;
pub mod order;
pub mod query;
pub mod relationships;
pub mod renditions;
pub mod trees;
pub mod types;
mod words;
