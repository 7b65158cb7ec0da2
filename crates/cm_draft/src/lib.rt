//! The changes of which writes are made.
#![tactic(auto)]

ghost use Rattle.std.specs.Prelude.{◌≡◌};

pub mod access;
pub mod change;
pub mod documents;
pub mod draft;
pub mod filing;
mod made;
pub mod removal;
pub mod series;
mod told;
pub mod typing;
