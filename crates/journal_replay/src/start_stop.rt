//! Why a journal isn't opened.

/// Why a journal isn't opened. The numbers are those of the entries that stand before the place.
#[derive(Clone, Copy, Debug, PartialEq, Eq, Drop)]
pub enum StartStop {
    /// The disk has failed.
    Fault,
    /// An open gate stands there, and no whole payload with a byte behind it follows.
    Damaged(u64),
    /// The payload is the encoding of nothing, or of an entry that is refused there.
    Stopped(u64),
    Memory,
}
