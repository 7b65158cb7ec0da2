//! What the bytes say of the head at their front.
ghost use Rattle.std.specs.Prelude.{◌≡◌, ◌≤◌, ◌<◌, ℕ, true, length, IfOk, OnOk};
ghost use Rattle.http_grammar.specs.Limits.{head_limit, field_room};
ghost use Rattle.http_grammar.specs.Judged.{is_judged, has_line_feed};
ghost use Rattle.http_wire.specs.Seen.{SeesPart, SeesHead, WholeHeadAt};

use crate::fields::{expects_continue, framing_of};
use http_grammar::{Framing, HttpFault, front};
use httparse::spans::{EMPTY_HEADER_SPAN, HeaderSpan, RequestSpans, parse_request};
use httparse::{Error, Status};
use std::alloc::AllocError;

/// The most bytes of a head.
pub const HEAD_LIMIT: usize = 65_536;

/// So many fields never stand in a head, since a field line has three bytes at least.
pub const ROOM: usize = 21_846;

/// Room for so many fields is kept between requests. Few heads have more.
pub const FEW: usize = 64;

/// What the bytes within the limit of a head say.
#[derive(Clone, Copy)]
pub enum PartSeen {
    /// They may still become a head.
    Open,
    /// They never will.
    Hopeless,
    /// A whole head.
    Head(RequestSpans),
}

/// What the bytes say of the head at their front.
#[derive(Clone, Copy)]
pub enum HeadSeen {
    /// It may still come.
    Open,
    /// It never will, or has a fault of its own.
    Bad(HttpFault),
    /// A whole head, how its body is framed, and whether it expects the interim reply.
    Whole(RequestSpans, Framing, bool),
}

/// A whole head at the front of the bytes: its places, how its body is framed, and whether it expects the interim reply.
#[derive(Clone, Copy)]
pub struct Framed {
    pub head: RequestSpans,
    pub framing: Framing,
    pub expects: bool,
}

// Whether a byte is a line feed.
fn feeds(bytes: &[u8]) -> bool
    ensures { result ≡ has_line_feed bytes.now }
{
    let mut rest = bytes;
    while let [first, after @ ..] = rest {
        if *first == b'\n' {
            return true;
        }
        rest = after;
    }
    false
}

// Whether a line feed stands after a byte that is neither CR nor LF.
fn judged(bytes: &[u8]) -> bool
    ensures { result ≡ is_judged bytes.now }
{
    let mut rest = bytes;
    while let [first, after @ ..] = rest {
        if *first != b'\r' && *first != b'\n' {
            return feeds(after);
        }
        rest = after;
    }
    false
}

/// Makes room for as many fields as a head can have.
pub fn widen(spans: &mut Vec<HeaderSpan>) -> Result<(), AllocError>
    ensures { OnOk result (length spans.new.items ≡ field_room) }
{
    spans.resize(ROOM, EMPTY_HEADER_SPAN)
}

/// Gives back the room that few heads need.
pub fn narrow(spans: &mut Vec<HeaderSpan>) {
    if spans.len() > FEW {
        spans.truncate(FEW);
        spans.shrink_to_fit();
    }
}

// What the judged bytes within the limit say, with room for all fields.
fn examine_wide(part: &[u8], spans: &mut Vec<HeaderSpan>) -> PartSeen
    requires judged { is_judged part.now ≡ true }
    requires room { length spans.old.items ≡ field_room }
    requires short { length part.now ≤ head_limit }
    ensures { SeesPart part.now spans.new.items result }
{
    match parse_request(part, spans) {
        Ok(Status::Complete(head)) => PartSeen::Head(head),
        Ok(Status::Partial) => PartSeen::Open,
        Err(_) => PartSeen::Hopeless,
    }
}

// What the judged bytes within the limit say. Where there are more fields than room, it makes room for all.
fn examine_fields(part: &[u8], spans: &mut Vec<HeaderSpan>) -> Result<PartSeen, AllocError>
    requires judged { is_judged part.now ≡ true }
    requires short { length part.now ≤ head_limit }
    ensures { IfOk result (λ seen. SeesPart part.now spans.new.items seen) }
{
    match parse_request(part, spans) {
        Ok(Status::Complete(head)) => Ok(PartSeen::Head(head)),
        Ok(Status::Partial) => Ok(PartSeen::Open),
        Err(Error::TooManyHeaders) => match widen(spans) {
            Ok(()) => Ok(examine_wide(part, spans)),
            Err(failed) => Err(failed),
        },
        Err(_) => Ok(PartSeen::Hopeless),
    }
}

// What the bytes within the limit say.
fn examine_part(part: &[u8], spans: &mut Vec<HeaderSpan>) -> Result<PartSeen, AllocError>
    requires { length part.now ≤ head_limit }
    ensures { IfOk result (λ seen. SeesPart part.now spans.new.items seen) }
{
    if !judged(part) {
        return Ok(PartSeen::Open);
    }
    examine_fields(part, spans)
}

// The fault of a whole head, or its framing.
fn judge(bytes: &[u8], spans: &[HeaderSpan], head: RequestSpans) -> HeadSeen
    requires { WholeHeadAt bytes.now spans.now head }
    ensures { SeesHead bytes.now spans.now result }
{
    let text = &bytes[..head.len];
    let fields = &spans[..head.headers];
    match framing_of(text, head.version, fields) {
        Ok(framing) => {
            let expects = expects_continue(text, head.version, fields, framing);
            HeadSeen::Whole(head, framing, expects)
        }
        Err(fault) => HeadSeen::Bad(fault),
    }
}

/// What the bytes say of the head at their front. The spans are written where it is whole.
pub fn examine_head(bytes: &[u8], spans: &mut Vec<HeaderSpan>) -> Result<HeadSeen, AllocError>
    ensures { IfOk result (λ seen. SeesHead bytes.now spans.new.items seen) }
{
    match examine_part(front(bytes, HEAD_LIMIT), spans) {
        Ok(PartSeen::Head(head)) => Ok(judge(bytes, spans, head)),
        Ok(PartSeen::Hopeless) => Ok(HeadSeen::Bad(HttpFault::BadHead)),
        Ok(PartSeen::Open) => {
            if bytes.len() < HEAD_LIMIT {
                Ok(HeadSeen::Open)
            } else {
                Ok(HeadSeen::Bad(HttpFault::LongHead))
            }
        }
        Err(failed) => Err(failed),
    }
}
