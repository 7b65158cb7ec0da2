//! Filing: which child stands in which folder, and under which name (CMIS 1.1, section 2.1.5).
#![tactic(auto)]

ghost use Rattle.std.specs.Prelude.{◌≡◌};

mod deep;
pub mod edit;
pub mod entry;
pub mod filing;
mod names;
mod parts;
pub mod path;
pub mod shift;
