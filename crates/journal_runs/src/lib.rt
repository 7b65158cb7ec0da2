//! The beginning and the end of a run over a journal in a file: the run goes on from what the file replays to, with a keeper, and tells in the end
//! what the file holds.
#![tactic(auto)]

mod beginning;
mod explains;
mod kept_stop;
mod leaving;
mod limits;
mod telling;

pub use beginning::begin;
pub use explains::Explains;
pub use kept_stop::KeptStop;
pub use leaving::{Left, disk_of, leave};
pub use limits::LimitsOf;
pub use telling::{tell_lost, tell_stop};
