//! The write on renditions, which is an action of this repository's own.
#![tactic(auto)]

ghost use Rattle.std.specs.Prelude.{◌≡◌};

pub mod add_rendition;
mod draft;
