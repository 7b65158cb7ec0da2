//! Why a run over a journal doesn't begin.
ghost use Rattle.std.specs.Prelude.{◌≡◌};
ghost use Rattle.journal_start.specs.Starting.{stop_of};

use journal_replay::StartStop;

/// Why a run over a journal doesn't begin. The numbers are those of the entries that stand before the place.
#[derive(Drop)]
pub enum BeginStop<P> {
    /// The disk has failed.
    Fault,
    /// An open gate stands there, and no whole payload with a byte behind it follows.
    Damaged(u64),
    /// The payload is the encoding of nothing, or of an entry that is refused there.
    Stopped(u64),
    /// The people of the run are refused; these are those of the file.
    People(P),
    Memory,
}

/// Why a journal isn't opened, as the reason why a run doesn't begin.
pub(crate) fn stop_of<P>(stop: StartStop) -> BeginStop<P>
    ensures { result ≡ stop_of stop }
{
    match stop {
        StartStop::Fault => BeginStop::Fault,
        StartStop::Damaged(entries) => BeginStop::Damaged(entries),
        StartStop::Stopped(entries) => BeginStop::Stopped(entries),
        StartStop::Memory => BeginStop::Memory,
    }
}
