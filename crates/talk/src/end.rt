//! How a session ends.
use http_grammar::HttpFault;

/// How a session ends.
#[derive(Clone, Copy, Debug, PartialEq, Eq)]
pub enum End {
    /// Its input ended where a request would begin, or a reply closed it.
    Ended,
    /// A read failed, and was counted by the source.
    ReadFault,
    /// A write failed, and was counted by the sink.
    WriteFault,
    /// The bytes of a request have this fault.
    Bad(HttpFault),
    /// Memory was wanted.
    Starved,
    /// What a write was due could not be kept, so nothing was sent for it.
    Unkept,
}
