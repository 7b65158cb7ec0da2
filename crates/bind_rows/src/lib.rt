//! Computed rows of what small requests ask: no code.
#![tactic(auto)]

ghost use Rattle.std.specs.Prelude.{◌≡◌};
