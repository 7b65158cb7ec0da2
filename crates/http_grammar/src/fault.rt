//! The faults of the bytes of a request.

/// Why the bytes at the front are no request, and never will be.
#[derive(Clone, Copy, Debug, PartialEq, Eq)]
pub enum HttpFault {
    /// No continuation is a head (RFC 9112, sections 3 and 5), or an HTTP/1.1 head lacks its one good Host field.
    BadHead,
    /// The first 65,536 bytes are no whole head.
    LongHead,
    /// The body has more than 16,777,216 bytes, or its chunked form more than 134,217,728.
    LongBody,
    /// The framing is none of RFC 9112, section 6, or a chunk or a trailer isn't by its grammar.
    BadLength,
    /// A transfer coding other than `chunked`.
    Coding,
    /// The input ends inside a request.
    Cut,
}
