//! Sessions that take turns over one history, one event after the other: the machine against which the running server is read.
#![tactic(auto)]

mod event;
mod hold;
mod laws;
mod run;
mod turns;

pub use event::{CoreStop, Done, Event};
pub use laws::{accepted_writes_stand_once, run_is_lawful};
pub use run::{Dones, run_events};
pub use turns::Core;
