//! One session of a connection: the relation between the bytes that come in, the history, and the bytes that go out,
//! with its laws; and the reply to one request, over any desk. It is generic in the machine.
#![tactic(auto)]

mod alone;
mod end;
mod laws;
mod link;
mod reply;
mod served;
mod session;
mod step;
mod turn;

pub use alone::{AloneEnd, run_alone};
pub use end::End;
pub use laws::{alone_is_one, session_alone, session_stands};
pub use reply::reply_to;
pub use served::Served;
pub use session::talk;
pub use turn::{Unanswered, Verdict, read_turn, write_turn};
