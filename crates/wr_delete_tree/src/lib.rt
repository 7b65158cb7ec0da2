//! deleteTree (CMIS 1.1, section 2.2.4.17): the tree below a folder, the visit of it, and what is left.
#![tactic(auto)]

ghost use Rattle.std.specs.Prelude.{◌≡◌};

pub mod delete_tree;
mod left;
mod treated;
mod tree;
mod visit;
