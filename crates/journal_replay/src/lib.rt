//! Opens a journal in a file by replay: each payload is decoded and judged where it stands, and none is kept in memory.
#![tactic(auto)]

mod begun;
mod code;
mod record;
mod restarts;
mod so_far;
mod start_stop;
mod unnumbered;

pub use begun::{Begun, start};
pub use code::JournalCode;
pub use record::{Record, Root};
pub use restarts::Restarts;
pub use so_far::SoFar;
pub use start_stop::StartStop;
pub use unnumbered::{Unnumbered, legal_lists_join, shifted_is_legal};
