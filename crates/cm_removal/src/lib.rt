//! Objects that go, with all that is theirs, and the events that tell of it.
#![tactic(auto)]

ghost use Rattle.std.specs.Prelude.{◌≡◌};

pub mod deleted;
mod entries;
pub mod gone;
mod kept;
mod marks;
mod objects;
mod series;
mod ties;
