//! Reading requests.
ghost use Rattle.std.specs.Prelude.{◌≡◌, ◌≤◌, [], ℕ, length, false, IfOk, MatchResult};
ghost use Rattle.http_wire.specs.Windows.{held};
ghost use Rattle.http_wire.specs.Bodies.{ReadsBody};
ghost use Rattle.http_wire.specs.Answers.{ReadsRequest};
ghost use Rattle.http_wire.specs.Seen.{SeesWhole, IsRead};
ghost use Rattle.http_grammar.specs.Limits.{body_limit};

use crate::body::fill;
use crate::chunks::read_chunks;
use crate::fault::WireStop;
use crate::head::{Head, Request, copy_head};
use crate::head_reader::read_head;
use crate::heads::{FEW, Framed, narrow, widen};
use crate::incoming::Incoming;
use crate::window::Window;
use bytes::Bytes;
use http_grammar::Framing;
use httparse::spans::{EMPTY_HEADER_SPAN, HeaderSpan};
use outside::Source;
use std::alloc::{AllocError, Global};
use std::marker::Model;

/// The bytes that were read and not used yet, with room for the places of the fields of a head. It begins small, and grows with what comes.
#[derive(Drop)]
pub struct Buffer {
    window: Window,
    spans: Vec<HeaderSpan>,
    answered: bool,
}

impl Model for Buffer {
    ghost use Rattle.http_wire.specs.Windows.{held};
    ghost use Rattle.http_wire.specs.Buffers.{BufferTold};

    ghost Value = { BufferTold };

    ghost view = { λ b. record { bytes = held b.window; answered = b.answered } };
}

impl Buffer {
    /// An empty buffer.
    pub fn new(alloc: Global) -> Result<Buffer, AllocError>
        ensures { IfOk result (λ buffer. buffer ≡ record { bytes = []; answered = false }) }
    {
        let spans = vec![in alloc; EMPTY_HEADER_SPAN; FEW]?;
        Ok(Buffer {
            window: Window::new(alloc),
            spans,
            answered: false,
        })
    }
}

// Reads a body in the chunked form, whose trailers may have as many fields as a head.
fn read_chunked<S: Source>(
    source: &mut S,
    window: &mut Window,
    spans: &mut Vec<HeaderSpan>,
    body: &mut Vec<u8>,
) -> Result<(), WireStop>
    requires { body.old.items ≡ [] }
    ensures reads { ReadsBody Framing.Chunked (held window.old) (held window.new) body.new.items (S.told source.old)
        (S.told source.new) result }
    ensures aside { S.aside source.new ≡ S.aside source.old }
{
    match widen(spans) {
        Ok(()) => read_chunks(source, window, spans, body),
        Err(_) => Err(WireStop::Memory),
    }
}

// Reads the body with this framing.
fn read_body<S: Source>(
    source: &mut S,
    window: &mut Window,
    spans: &mut Vec<HeaderSpan>,
    framing: Framing,
    body: &mut Vec<u8>,
) -> Result<(), WireStop>
    requires short { (n : ℕ) → framing ≡ Framing.Sized n → n ≤ body_limit }
    requires empty { body.old.items ≡ [] }
    ensures reads { ReadsBody framing (held window.old) (held window.new) body.new.items (S.told source.old)
        (S.told source.new) result }
    ensures aside { S.aside source.new ≡ S.aside source.old }
{
    match framing {
        Framing::Sized(count) => fill(source, window, body, count as usize),
        Framing::Chunked => read_chunked(source, window, spans, body),
    }
}

// Copies the head at the front of the window.
fn take_head(
    alloc: Global,
    window: &Window,
    spans: &[HeaderSpan],
    framed: Framed,
) -> Result<Head, AllocError>
    requires { SeesWhole (held window.now) spans.now framed.head framed.framing framed.expects }
    ensures { IfOk result (λ head. IsRead (held window.now) framed.head framed.framing framed.expects head) }
{
    let text = &window.as_slice()[..framed.head.len];
    let head = copy_head(alloc, text, spans, framed.head)?;
    Ok(head)
}

// The request of a head and the body that was collected.
fn with_body(head: Head, body: Vec<u8>) -> Result<Incoming, WireStop>
    ensures { MatchResult result (λ incoming. incoming ≡ Incoming.Body (record { head = head; body = body.items }))
        (λ stop. stop ≡ WireStop.Memory) }
{
    match Bytes::from_vec(body) {
        Ok(body) => Ok(Incoming::Body(Request::new(head, body))),
        Err(_) => Err(WireStop::Memory),
    }
}

// Reads the next request into the parts of a buffer.
fn read_into<S: Source>(
    alloc: Global,
    source: &mut S,
    window: &mut Window,
    spans: &mut Vec<HeaderSpan>,
    answered: &mut bool,
) -> Result<Incoming, WireStop>
    ensures reads { ReadsRequest (record { bytes = held window.old; answered = answered.old })
        (record { bytes = held window.new; answered = answered.new }) (S.told source.old) (S.told source.new) result }
    ensures aside { S.aside source.new ≡ S.aside source.old }
{
    narrow(spans);
    let framed = match read_head(source, window, spans) {
        Ok(Some(framed)) => framed,
        Ok(None) => return Ok(Incoming::Over),
        Err(stop) => return Err(stop),
    };
    let Ok(head) = take_head(alloc, window, spans, framed) else {
        return Err(WireStop::Memory);
    };
    if framed.expects && !*answered {
        *answered = true;
        return Ok(Incoming::Head(head));
    }
    *answered = false;
    window.drop_front(framed.head.len);
    let mut body = Vec::new(alloc);
    match read_body(source, window, spans, framed.framing, &mut body) {
        Ok(()) => with_body(head, body),
        Err(stop) => Err(stop),
    }
}

/// Reads the next request. What the source gave and isn't used stays in the buffer; a head is used up together with its body.
/// A head that expects the interim reply is answered once, before its body is read. After an error the buffer is of no more use.
pub fn read_request<S: Source>(
    alloc: Global,
    source: &mut S,
    buffer: &mut Buffer,
) -> Result<Incoming, WireStop>
    ensures reads { ReadsRequest buffer.old buffer.new (S.told source.old) (S.told source.new) result }
    ensures aside { S.aside source.new ≡ S.aside source.old }
{
    read_into(
        alloc,
        source,
        &mut buffer.window,
        &mut buffer.spans,
        &mut buffer.answered,
    )
}
