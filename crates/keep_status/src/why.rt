//! Why a journal can't be kept.
ghost use Rattle.std.specs.Prelude.{◌≡◌};
ghost use Rattle.keep_status.specs.Endings.{unkept, why_of};

use file_disk::Reason;

/// Why a journal can't be kept, or isn't begun.
#[derive(Clone, Copy, Debug, PartialEq, Eq, Drop)]
pub enum WhyUnkept {
    /// Another process has its file.
    InUse,
    /// Its file can't be opened and locked, or made where there is none.
    NotOpened,
    /// Its file can't be read.
    NotRead,
    /// Its file can't be written: the device is full, or the file would be longer than a limit allows.
    NotWritten,
    /// What was written can't be brought to the device.
    NotSynced,
    /// There is no memory.
    Memory,
    /// Its file tells no reason.
    Other,
}

/// What the reason of a file says of the journal in it.
pub fn why_of(reason: Option<Reason>) -> WhyUnkept
    ensures { result ≡ why_of reason }
{
    match reason {
        None => WhyUnkept::Other,
        Some(Reason::InUse) => WhyUnkept::InUse,
        Some(Reason::NotOpened) => WhyUnkept::NotOpened,
        Some(Reason::NotRead) => WhyUnkept::NotRead,
        Some(Reason::NotWritten) => WhyUnkept::NotWritten,
        Some(Reason::NotSynced) => WhyUnkept::NotSynced,
        Some(Reason::Memory) => WhyUnkept::Memory,
    }
}

impl WhyUnkept {
    /// The line that says so, with its line end.
    pub(crate) fn line(self) -> &'static str
        ensures { result.now ≡ unkept self }
    {
        match self {
            WhyUnkept::InUse => "journal is in use\n",
            WhyUnkept::NotOpened =>
                "journal can't be opened: see its name, its folder and their rights\n",
            WhyUnkept::NotRead => "journal can't be read: see the device\n",
            WhyUnkept::NotWritten =>
                "journal can't be written: see the room on the device and the limits on the size of a file\n",
            WhyUnkept::NotSynced =>
                "journal can't be brought to the device: see the device, and start again\n",
            WhyUnkept::Memory => "journal can't be kept for want of memory: start again\n",
            WhyUnkept::Other => "journal can't be kept: start again\n",
        }
    }
}
