//! The pieces of the chunked form of a body that have no stated length: the line before a chunk, the line end behind one, the trailers.
ghost use Rattle.std.specs.Prelude.{◌≡◌, ◌≤◌, ◌<◌, length, drop, ⊤};
ghost use Rattle.http_wire.specs.Windows.{held};
ghost use Rattle.http_wire.specs.Pieces.{SeesInner, SeesPiece, LooksPiece, PieceAnswer, ReadsPiece};
ghost use Rattle.http_grammar.specs.Limits.{field_room};

use crate::fault::WireStop;
use crate::pace::Pace;
use crate::piece::{Piece, PieceEnd, PieceSeen};
use crate::window::Window;
use http_grammar::{HttpFault, front};
use httparse::spans::{HeaderSpan, parse_headers};
use httparse::{Status, parse_chunk_size};
use outside::Source;

/// The most bytes of the trailers.
const TRAILER_LIMIT: usize = 65_536;

fn examine_line(text: &[u8]) -> PieceSeen
    ensures { SeesInner Piece.Line text.now result }
{
    match parse_chunk_size(text) {
        Ok(Status::Complete((len, size))) => PieceSeen::Whole(PieceEnd { len, size }),
        Ok(Status::Partial) => PieceSeen::Open,
        Err(_) => PieceSeen::Bad,
    }
}

fn examine_trailers(text: &[u8], spans: &mut [HeaderSpan]) -> PieceSeen
    requires { length spans.old ≡ field_room }
    ensures { SeesInner Piece.Trailers text.now result }
{
    match parse_headers(front(text, TRAILER_LIMIT), spans) {
        Ok(Status::Complete((len, _))) => PieceSeen::Whole(PieceEnd { len, size: 0 }),
        Ok(Status::Partial) if text.len() < TRAILER_LIMIT => PieceSeen::Open,
        Ok(Status::Partial) => PieceSeen::Bad,
        Err(_) => PieceSeen::Bad,
    }
}

fn examine_end(text: &[u8]) -> PieceSeen
    ensures { SeesInner Piece.End text.now result }
{
    match text {
        [] => PieceSeen::Open,
        [first] => {
            if *first == b'\r' {
                PieceSeen::Open
            } else {
                PieceSeen::Bad
            }
        }
        [first, second, ..] => {
            if *first == b'\r' && *second == b'\n' {
                PieceSeen::Whole(PieceEnd { len: 2, size: 0 })
            } else {
                PieceSeen::Bad
            }
        }
    }
}

fn examine_text(piece: Piece, text: &[u8], spans: &mut [HeaderSpan]) -> PieceSeen
    requires { length spans.old ≡ field_room }
    ensures { SeesInner piece text.now result }
{
    match piece {
        Piece::Line => examine_line(text),
        Piece::Trailers => examine_trailers(text, spans),
        Piece::End => examine_end(text),
    }
}

// What stands at the front of the bytes, of which the piece may have so many.
fn examine(piece: Piece, bytes: &[u8], budget: usize, spans: &mut [HeaderSpan]) -> PieceSeen
    requires { length spans.old ≡ field_room }
    ensures { SeesPiece piece budget bytes.now result }
{
    match examine_text(piece, front(bytes, budget), spans) {
        PieceSeen::Open if budget <= bytes.len() => PieceSeen::Full,
        seen => seen,
    }
}

// How many bytes settle what the piece is, whatever they are, where it may have so many.
fn limit_of(piece: Piece, budget: usize) -> usize
    ensures { result ≤ budget }
{
    match piece {
        Piece::Trailers => budget.min(TRAILER_LIMIT),
        _ => budget,
    }
}

// A look at the bytes, where it is worth it.
fn look(
    piece: Piece,
    bytes: &[u8],
    budget: usize,
    spans: &mut [HeaderSpan],
    pace: &mut Pace,
) -> PieceSeen
    requires { length spans.old ≡ field_room }
    ensures { LooksPiece piece budget bytes.now result }
{
    if !pace.is_worth(bytes, limit_of(piece, budget)) {
        return PieceSeen::Open;
    }
    examine(piece, bytes, budget, spans)
}

// Drops a whole piece from the window.
fn take_piece(window: &mut Window, end: PieceEnd) -> PieceEnd
    requires { end.len ≤ length (held window.old) }
    ensures end { result ≡ end }
    ensures window { held window.new ≡ drop end.len (held window.old) }
{
    window.drop_front(end.len);
    end
}

// The answer where the source has ended.
fn at_end(
    piece: Piece,
    window: &mut Window,
    budget: usize,
    spans: &mut [HeaderSpan],
) -> Result<PieceEnd, WireStop>
    requires { length spans.old ≡ field_room }
    ensures { PieceAnswer ⊤ ⊥ piece budget (held window.old) (held window.new) result }
{
    match examine(piece, window.as_slice(), budget, spans) {
        PieceSeen::Open => Err(WireStop::Bad(HttpFault::Cut)),
        PieceSeen::Full => Err(WireStop::Bad(HttpFault::LongBody)),
        PieceSeen::Bad => Err(WireStop::Bad(HttpFault::BadLength)),
        PieceSeen::Whole(end) => Ok(take_piece(window, end)),
    }
}

// The answer where a read has failed.
fn at_fault(
    piece: Piece,
    window: &mut Window,
    budget: usize,
    spans: &mut [HeaderSpan],
) -> Result<PieceEnd, WireStop>
    requires { length spans.old ≡ field_room }
    ensures { PieceAnswer ⊥ ⊤ piece budget (held window.old) (held window.new) result }
{
    match examine(piece, window.as_slice(), budget, spans) {
        PieceSeen::Open => Err(WireStop::ReadFault),
        PieceSeen::Full => Err(WireStop::Bad(HttpFault::LongBody)),
        PieceSeen::Bad => Err(WireStop::Bad(HttpFault::BadLength)),
        PieceSeen::Whole(end) => Ok(take_piece(window, end)),
    }
}

fn pace_of(piece: Piece) -> Pace {
    match piece {
        Piece::Trailers => Pace::for_trailers(),
        _ => Pace::for_line(),
    }
}

/// Reads until a piece is whole at the front of the window, or none can come within its bytes; and drops a whole one.
pub fn read_piece<S: Source>(
    source: &mut S,
    window: &mut Window,
    spans: &mut [HeaderSpan],
    piece: Piece,
    budget: usize,
) -> Result<PieceEnd, WireStop>
    requires { length spans.old ≡ field_room }
    ensures reads { ReadsPiece (held window.old) (held window.new) piece budget (S.told source.old)
        (S.told source.new) result }
    ensures aside { S.aside source.new ≡ S.aside source.old }
{
    let mut pace = pace_of(piece);
    'more: loop {
        match look(piece, window.as_slice(), budget, spans, &mut pace) {
            PieceSeen::Open => {}
            PieceSeen::Full => return Err(WireStop::Bad(HttpFault::LongBody)),
            PieceSeen::Bad => return Err(WireStop::Bad(HttpFault::BadLength)),
            PieceSeen::Whole(end) => return Ok(take_piece(window, end)),
        }
        match window.read_more(source) {
            Ok(true) => {}
            Ok(false) => return at_end(piece, window, budget, spans),
            Err(WireStop::ReadFault) => return at_fault(piece, window, budget, spans),
            Err(stop) => return Err(stop),
        }
    }
}
