//! How a run ends.

/// How the run of a script ends.
#[derive(Clone, Copy, Debug, PartialEq, Eq)]
pub enum End {
    /// The script was read to its end.
    Over,
    /// The line with this number, counted from 1, is not valid.
    NotValid(u64),
    /// The source failed.
    ReadFault,
    /// The sink failed.
    WriteFault,
    /// There was no memory.
    Starved,
}
