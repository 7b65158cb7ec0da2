//! Runs of scripts: sessions that take turns over one history, a line of the script for each step and a line of output for it.
#![tactic(auto)]

ghost use Rattle.std.specs.Prelude.{◌≡◌};

mod end;
mod event;
mod print;
mod run;
mod scripted;
mod step;

pub use end::End;
pub use run::run_script;
pub use scripted::Scripted;
