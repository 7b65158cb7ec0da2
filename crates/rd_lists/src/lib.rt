//! Lists of objects that the caller reads: the versions of a document, the folders of an object, and the parent of a folder as an answer.
#![tactic(auto)]

ghost use Rattle.std.specs.Prelude.{◌≡◌};

pub mod folders;
pub mod law;
pub mod listed;
pub mod number;
pub mod parent;
pub mod versions;
