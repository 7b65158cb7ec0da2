//! Many links, served over one journal, each by a session on a thread of its own: the calling thread takes them from a host,
//! and keeps what is told of each.
#![tactic(auto)]

mod ended;
mod hall;
mod laws;
mod marks;
mod running;
mod serving;
mod session;
mod task;

pub use ended::{Closing, Ended, HostEnd};
pub use laws::nowhere_keeps_all;
pub use serving::serve;
