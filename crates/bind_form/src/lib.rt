//! The method and the form of a request (CMIS 1.1, sections 5.2.9 and 5.4.4).
#![tactic(auto)]

ghost use Rattle.std.specs.Prelude.{◌≡◌};

pub mod boundary;
pub mod fields;
pub mod form;
pub mod media;
