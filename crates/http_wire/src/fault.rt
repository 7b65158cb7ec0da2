//! Why no request came.
use http_grammar::HttpFault;

/// Why no request came. After it the session ends, and its buffer with it.
#[derive(Clone, Copy, Debug, PartialEq, Eq)]
pub enum WireStop {
    /// The bytes are no request.
    Bad(HttpFault),
    /// A read failed, and was counted by the source.
    ReadFault,
    /// There was no memory.
    Memory,
}
