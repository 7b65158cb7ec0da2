//! The requests of a load, as bytes.
#![tactic(auto)]

ghost use Rattle.std.specs.Prelude.{◌≡◌};

mod posts;

pub use posts::{request, requests};
