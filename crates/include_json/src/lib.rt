//! Objects, pages, trees and the rows of queries with what is shown beside properties, as JSON (CMIS 1.1, section 5.2.11).
#![tactic(auto)]

ghost use Rattle.std.specs.Prelude.{◌≡◌};

pub mod included;
pub mod pages;
mod row;
pub mod rows;
pub mod tree;
