//! A law of the repository and the people of its journal, as a clause of a function that does nothing.
#![tactic(auto)]

ghost use Rattle.std.specs.Prelude.{◌≡◌};

mod law;

pub use law::repositories_have_their_people;
