//! Why a call of a file failed.

/// Why the first call since the file was begun failed, or why it wasn't begun.
#[derive(Clone, Copy, Debug, PartialEq, Eq, Drop)]
pub enum Reason {
    /// Another process has it.
    InUse,
    /// It can't be opened and locked, or made where there is none.
    NotOpened,
    /// It can't be read: the device failed, or the file is shorter than it was.
    NotRead,
    /// It can't be written: the device failed or is full, or the file would be longer than the system or a limit allows.
    NotWritten,
    /// What was written can't be brought to the device. What the file holds is known again once it is begun.
    NotSynced,
    /// There is no memory.
    Memory,
}
