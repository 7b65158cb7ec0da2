//! The repository of a journal's people: how it begins with them, and how it goes on with others.
#![tactic(auto)]

ghost use Rattle.std.specs.Prelude.{◌≡◌};

mod adopt;
mod begin;
mod events;
mod law;

pub use adopt::adopted;
pub use begin::begun;
pub use law::{events_stay, people_hold, people_keep_well};
