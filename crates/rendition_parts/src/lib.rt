//! The arguments of the calls on renditions, what a rendition filter keeps, and what their replies hold.
#![tactic(auto)]

ghost use Rattle.std.specs.Prelude.{◌≡◌};

pub mod filter;
pub mod readings;
pub mod replies;
pub mod weight;
pub mod writes;
