//! The running lock: one history for all threads. Writers take turns; who looks takes the version from a shelf, and never waits for a write.
#![tactic(auto)]

mod board;
mod desk;
mod failure;
mod lock;
mod pass;
mod plays;
mod queue;
mod seats;
mod shelf;
mod turn;

pub use board::{Begun, Hold, Laid, Store, Turn, View};
pub use desk::LockDesk;
pub use lock::{Lock, SplitStop, Tally};
pub use pass::Pass;
