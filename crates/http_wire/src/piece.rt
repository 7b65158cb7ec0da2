//! The pieces of the chunked form of a body that have no stated length.

/// A piece of the chunked form (RFC 9112, section 7.1).
#[derive(Clone, Copy)]
pub enum Piece {
    /// The line before the data of a chunk, or the last one.
    Line,
    /// The CRLF behind the data of a chunk.
    End,
    /// The trailers, with their empty line.
    Trailers,
}

/// How many bytes a whole piece has, and, of a line, how much data it announces.
#[derive(Clone, Copy)]
pub struct PieceEnd {
    pub len: usize,
    pub size: u64,
}

/// What the bytes say of a piece at their front.
#[derive(Clone, Copy)]
pub enum PieceSeen {
    /// It may still come.
    Open,
    /// It may still come, but not within the limit.
    Full,
    /// It never will.
    Bad,
    Whole(PieceEnd),
}
