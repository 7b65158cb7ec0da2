//! What is shown of an object: its properties, and of the rest what is asked for (CMIS 1.1, section 2.2.1.2).
#![tactic(auto)]

ghost use Rattle.std.specs.Prelude.{◌≡◌};

pub mod included;
pub mod law;
mod policies;
