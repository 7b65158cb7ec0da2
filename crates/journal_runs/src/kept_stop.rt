//! Why a run over a journal doesn't begin.

use journal_start::BeginStop;

/// Why a run over the file of a journal doesn't begin.
#[derive(Drop)]
pub enum KeptStop<P> {
    /// The journal isn't begun.
    NotBegun(BeginStop<P>),
    /// The journal is begun, but the number of a session in it is the greatest that there is: no new session has one.
    Sessions,
}
