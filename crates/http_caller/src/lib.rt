//! What the head of a request says of its caller, and of the step that it wants to see at least.
#![tactic(auto)]

mod caller;
mod step;

pub use caller::caller_of;
pub use step::least_of;
