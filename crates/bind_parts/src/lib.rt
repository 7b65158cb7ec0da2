//! What a request gives to the readers of its arguments, and what many calls have in common.
#![tactic(auto)]

ghost use Rattle.std.specs.Prelude.{◌≡◌};

pub mod asking;
pub mod parts;
