//! What a run of the program ends with: its statuses, the lines that the program writes of itself, and the two sides of a run as one link.
#![tactic(auto)]

mod lent;
mod line;
mod status;

pub use lent::Lent;
pub use line::summary;
pub use status::{refuse, refused, status_of, sum_up};
