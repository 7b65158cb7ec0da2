//! The real objects behind the traits of `outside`: standard input, standard output, the system's clock, and connections on loopback,
//! with an alarm that ends these. They keep their count of faults, and tell nothing of content.
#![tactic(auto)]

mod again;
mod alarm;
mod clock;
mod sink;
mod source;
mod tcp;
#[cfg(test)]
mod tests;

pub use alarm::Alarm;
pub use clock::{LATEST_MS, SystemClock};
pub use sink::StdSink;
pub use source::StdSource;
pub use tcp::{LONGEST_WAIT_S, TcpHost, TcpLink};
