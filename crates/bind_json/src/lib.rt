//! Replies as JSON (CMIS 1.1, sections 5.2.10 and 5.2.11).
#![tactic(auto)]

ghost use Rattle.std.specs.Prelude.{◌≡◌};

pub mod replies;
