//! JSON (RFC 8259) over serde_json: values that are written compact with their names in byte order, values of properties, the bodies of causes,
//! and what stands at the keys of a text that is read.
#![tactic(auto)]

ghost use Rattle.std.specs.Prelude.{◌≡◌};

pub mod cause;
pub mod read;
pub mod tree;
pub mod values;
pub mod write;
