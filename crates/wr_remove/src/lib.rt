//! Writes that take objects away: deletions and cancelled check-outs.
#![tactic(auto)]

ghost use Rattle.std.specs.Prelude.{◌≡◌};

pub mod cancel_check_out;
pub mod delete;
pub mod members;
mod without;
