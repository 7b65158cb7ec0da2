//! A journal in a file: payloads, each on the disk before it is acknowledged, whatever moment a crash comes at. It knows nothing of what
//! the payloads mean.
#![tactic(auto)]

mod appending;
mod journal;
mod laws;
mod open_stop;
mod opening;
mod preparing;
mod put_stop;
mod reading;
mod whole;
mod writing;

pub use journal::Journal;
pub use laws::{
    as_before, damage_excludes, extent_stays, gate_waits, one_reading, stays_acknowledged,
};
pub use open_stop::OpenStop;
pub use opening::{Next, Opening};
pub use put_stop::PutStop;
pub use whole::Payloads;

#[cfg(test)]
mod tests;
