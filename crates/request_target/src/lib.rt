//! What a request's target says (CMIS 1.1, section 5.3; RFC 9112, section 3.2).
#![tactic(auto)]

ghost use Rattle.std.specs.Prelude.{◌≡◌};

pub mod form;
pub mod path;
pub mod target;
