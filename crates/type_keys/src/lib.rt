//! The keys of type definitions in JSON, the kinds of values that stand at them, and the words and names among these (CMIS 1.1,
//! sections 2.1.3 and 5.2.9).
#![tactic(auto)]

ghost use Rattle.std.specs.Prelude.{◌≡◌};

pub mod kind;
pub mod shape;
pub mod word;
