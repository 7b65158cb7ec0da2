//! What is read in a list of types: those right below one, and the tree below one (CMIS 1.1, section 2.1.3.1).
#![tactic(auto)]

ghost use Rattle.std.specs.Prelude.{◌≡◌};

pub mod below;
mod forest;
pub mod rows;
