//! The sessions of a load: a thousand requests each, at the moments of their numbers, each over the state that the one before left.
//! It is generic in the machine.
#![tactic(auto)]

ghost use Rattle.std.specs.Prelude.{◌≡◌};

mod law;
mod numbers;
mod run;

pub use law::made_is_one;
pub use numbers::{numbers_in, sessions_of};
pub use run::run_session;
