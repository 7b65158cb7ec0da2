//! Type definitions are shown as JSON (CMIS 1.1, section 5.2.9), and what is shown is read back.
#![tactic(auto)]

ghost use Rattle.std.specs.Prelude.{◌≡◌};

pub mod read_back;
pub mod show;
