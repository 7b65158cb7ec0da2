//! The arguments of calls and what replies hold, each a record of its own.
#![tactic(auto)]

ghost use Rattle.std.specs.Prelude.{◌≡◌};

pub mod changes;
pub mod names;
pub mod place;
pub mod readings;
pub mod replies;
pub mod stream;
pub mod versions;
pub mod weight;
pub mod writes;
