//! Bodies in the chunked form: the data of the chunks is collected once, whatever the size of the chunks.
ghost use Rattle.std.specs.Prelude.{◌≡◌, ◌+◌, ◌≤◌, ◌<◌, ◌&&◌, [], length, nat_le};
ghost use Rattle.http_wire.specs.Windows.{held};
ghost use Rattle.http_wire.specs.Bodies.{ReadsData, ReadsChunk, ReadsBody};
ghost use Rattle.http_grammar.specs.Limits.{field_room, body_limit};

use crate::body::{BODY_LIMIT, fill};
use crate::fault::WireStop;
use crate::piece::{Piece, PieceEnd};
use crate::pieces::read_piece;
use crate::window::Window;
use http_grammar::{Framing, HttpFault};
use httparse::spans::HeaderSpan;
use outside::Source;

/// The most bytes of its chunked form.
const CHUNKED_LIMIT: usize = 134_217_728;

/// The bytes of the line end behind the data of a chunk.
const END: usize = 2;

// Adds the data of a chunk to the body, and drops the line end behind it.
fn read_data<S: Source>(
    source: &mut S,
    window: &mut Window,
    spans: &mut [HeaderSpan],
    body: &mut Vec<u8>,
    size: usize,
) -> Result<(), WireStop>
    requires room { length spans.old ≡ field_room }
    requires short { length body.old.items + size ≤ body_limit }
    ensures reads { ReadsData (held window.old) (held window.new) body.old.items body.new.items size (S.told source.old)
        (S.told source.new) result }
    ensures aside { S.aside source.new ≡ S.aside source.old }
{
    match fill(source, window, body, size) {
        Ok(()) => {}
        Err(stop) => return Err(stop),
    }
    match read_piece(source, window, spans, Piece::End, END) {
        Ok(_) => Ok(()),
        Err(stop) => Err(stop),
    }
}

fn len_of(body: &Vec<u8>) -> usize
    ensures { result ≡ length body.now.items }
{
    body.len()
}

// Whether the chunk that a line announces keeps within both limits.
#[tactic(auto, unfolding(http_grammar::specs::Limits::body_limit))]
fn fits(held: usize, form: usize, line: PieceEnd) -> bool
    requires held { held ≤ body_limit }
    requires form { form ≤ 134217728 }
    requires len { line.len ≤ 134217728 }
    ensures { result ≡ (nat_le (held + line.size) body_limit && nat_le (form + (line.len + line.size + 2)) 134217728) }
{
    line.size <= BODY_LIMIT - held as u64
        && line.size <= CHUNKED_LIMIT as u64
        && form + (line.len + line.size as usize + END) <= CHUNKED_LIMIT
}

// Reads one chunk more, behind whole ones that take so many bytes, and says how many they take then. None is the end of the body.
fn read_chunk<S: Source>(
    source: &mut S,
    window: &mut Window,
    spans: &mut [HeaderSpan],
    body: &mut Vec<u8>,
    form: usize,
) -> Result<Option<usize>, WireStop>
    requires room { length spans.old ≡ field_room }
    requires short { length body.old.items ≤ body_limit }
    requires within { form ≤ 134217728 }
    ensures reads { ReadsChunk (held window.old) (held window.new) body.old.items body.new.items form
        (S.told source.old) (S.told source.new) result }
    ensures aside { S.aside source.new ≡ S.aside source.old }
{
    let budget = CHUNKED_LIMIT - form;
    let line = match read_piece(source, window, spans, Piece::Line, budget) {
        Ok(line) => line,
        Err(stop) => return Err(stop),
    };
    if line.size == 0 {
        return match read_piece(source, window, spans, Piece::Trailers, budget - line.len) {
            Ok(_) => Ok(None),
            Err(stop) => Err(stop),
        };
    }
    if !fits(len_of(body), form, line) {
        return Err(WireStop::Bad(HttpFault::LongBody));
    }
    match read_data(source, window, spans, body, line.size as usize) {
        Ok(()) => Ok(Some(form + (line.len + line.size as usize + END))),
        Err(stop) => Err(stop),
    }
}

/// Reads a body in the chunked form, and drops its form from the window.
pub fn read_chunks<S: Source>(
    source: &mut S,
    window: &mut Window,
    spans: &mut [HeaderSpan],
    body: &mut Vec<u8>,
) -> Result<(), WireStop>
    requires room { length spans.old ≡ field_room }
    requires empty { body.old.items ≡ [] }
    ensures reads { ReadsBody Framing.Chunked (held window.old) (held window.new) body.new.items (S.told source.old)
        (S.told source.new) result }
    ensures aside { S.aside source.new ≡ S.aside source.old }
{
    let mut form = 0;
    'chunks: loop {
        match read_chunk(source, window, spans, body, form) {
            Ok(Some(longer)) => form = longer,
            Ok(None) => return Ok(()),
            Err(stop) => return Err(stop),
        }
    }
}
