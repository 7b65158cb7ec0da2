//! Forms in parts: bodies of the media type multipart/form-data (RFC 7578; RFC 2046, section 5.1).
#![tactic(auto)]

ghost use Rattle.std.specs.Prelude.{◌≡◌};

pub mod disposition;
pub mod field;
pub mod gathered;
pub mod head;
pub mod kind;
pub mod laws;
pub mod line;
pub mod mark;
pub mod part;
pub mod parts;
pub mod scan;
pub mod span;
pub mod split;
pub mod wanted;
