//! How the body of a request is framed.

/// Where the body of a request ends (RFC 9112, section 6.3).
#[derive(Clone, Copy, Debug, PartialEq, Eq)]
pub enum Framing {
    /// After so many bytes: the number of Content-Length, or 0 without one.
    Sized(u64),
    /// After its last chunk and the trailers.
    Chunked,
}
