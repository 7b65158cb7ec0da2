//! The head of a reply, put together in a fixed array.
ghost use Rattle.std.specs.Prelude.{◌≡◌, ◌++◌, ◌≤◌, ◌+◌, ℕ, List, [], take, length, decimal, codes};
ghost use Rattle.std.specs.Option.{unwrap_or};
ghost use Rattle.http.specs.StatusCode.{reason_phrase};
ghost use Rattle.http_reply.specs.Replies.{phrase, line, status_line, media_line, allow_line, challenge_line, step_line, close_line, head_text};

use cm_base::media::MediaType;
use cm_base::shown::Shown;
use http::StatusCode;
use itoa::Buffer;
use std::marker::Model;

/// The bytes of a head, of which there are never more than 512.
#[derive(Drop)]
pub struct Head {
    bytes: [u8; 512],
    len: usize,
}

impl Model for Head {
    ghost use Rattle.std.specs.Prelude.{List, ℕ, take, ◌≤◌};

    ghost Value = { List ℕ };

    ghost view = { λ h. take h.len h.bytes };

    ghost invariant = { λ h. h.len ≤ 512 };
}

fn put(bytes: &mut [u8; 512], at: usize, piece: &[u8])
    requires { at + length piece.now ≤ 512 }
    ensures { take (at + length piece.now) bytes.new ≡ take at bytes.old ++ piece.now }
{
    bytes[at..at + piece.len()].copy_from_slice(piece);
}

impl Head {
    fn new() -> Head
        ensures { result ≡ [] }
    {
        Head {
            bytes: [0; 512],
            len: 0,
        }
    }

    /// Its bytes.
    pub fn bytes(&self) -> &[u8]
        ensures { result.now ≡ self.now }
    {
        &self.bytes[..self.len]
    }

    fn push(&mut self, piece: &[u8])
        requires { length self.old + length piece.now ≤ 512 }
        ensures { self.new ≡ self.old ++ piece.now }
    {
        put(&mut self.bytes, self.len, piece);
        self.len += piece.len();
    }
}

// The phrase of a code.
fn phrase_of_code(code: StatusCode) -> &'static str
    ensures { result.now ≡ unwrap_or (reason_phrase code) [] }
{
    match code.canonical_reason() {
        Some(text) => text,
        None => "",
    }
}

fn phrase_of(status: u16) -> &'static str
    ensures value { result.now ≡ phrase status }
    ensures short { length result.now ≤ 31 }
{
    match StatusCode::from_u16(status) {
        Ok(code) => phrase_of_code(code),
        Err(_) => "",
    }
}

fn push_line(head: &mut Head, name: &[u8], value: &[u8])
    requires { length head.old + (length name.now + (length value.now + 2)) ≤ 512 }
    ensures value { head.new ≡ head.old ++ line name.now value.now }
    ensures len { length head.new ≡ length head.old + (length name.now + (length value.now + 2)) }
{
    head.push(name);
    head.push(value);
    head.push(b"\r\n");
}

// A field whose value is a number.
fn push_number(head: &mut Head, name: &[u8], n: u64)
    requires { length head.old + (length name.now + 22) ≤ 512 }
    ensures value { head.new ≡ head.old ++ line name.now (decimal n) }
    ensures len { length head.new ≤ length head.old + (length name.now + 22) }
{
    let mut buffer = Buffer::new();
    push_line(head, name, buffer.format(n).as_bytes());
}

fn push_status(head: &mut Head, status: u16)
    requires { length head.old ≤ 100 }
    ensures value { head.new ≡ head.old ++ status_line status }
    ensures len { length head.new ≤ length head.old + 70 }
{
    let phrase = phrase_of(status);
    let mut buffer = Buffer::new();
    head.push(b"HTTP/1.1 ");
    head.push(buffer.format(status).as_bytes());
    head.push(b" ");
    head.push(phrase.as_bytes());
    head.push(b"\r\n");
}

fn push_media(head: &mut Head, media: &MediaType)
    requires { length head.old ≤ 200 }
    ensures value { head.new ≡ head.old ++ media_line media.now }
    ensures len { length head.new ≤ length head.old + 271 }
{
    let text = media.as_str().as_bytes();
    match text {
        [] => {}
        [_, ..] => push_line(head, b"Content-Type: ", text),
    }
}

fn push_allow(head: &mut Head, status: u16)
    requires { length head.old ≤ 400 }
    ensures value { head.new ≡ head.old ++ allow_line status }
    ensures len { length head.new ≤ length head.old + 18 }
{
    if status == 405 {
        head.push(b"Allow: GET, POST\r\n");
    }
}

fn push_challenge(head: &mut Head, status: u16)
    requires { length head.old ≤ 400 }
    ensures value { head.new ≡ head.old ++ challenge_line status }
    ensures len { length head.new ≤ length head.old + 55 }
{
    if status == 401 {
        head.push(b"WWW-Authenticate: Basic realm=\"cmis\", charset=\"UTF-8\"\r\n");
    }
}

fn push_step(head: &mut Head, step: Option<u64>)
    requires { length head.old ≤ 453 }
    ensures value { head.new ≡ head.old ++ step_line step }
    ensures len { length head.new ≤ length head.old + 33 }
{
    if let Some(step) = step {
        push_number(head, b"CMIS-Step: ", step);
    }
}

fn push_close(head: &mut Head, last: bool)
    requires { length head.old ≤ 491 }
    ensures value { head.new ≡ head.old ++ close_line last }
    ensures len { length head.new ≤ length head.old + 19 }
{
    if last {
        head.push(b"Connection: close\r\n");
    }
}

/// The head of a reply.
#[tactic(auto, unfolding(crate::specs::Replies::head_text))]
pub fn make_head(shown: &Shown, last: bool) -> Head
    ensures { result ≡ head_text shown.now last }
{
    let mut head = Head::new();
    push_status(&mut head, shown.status);
    push_media(&mut head, &shown.kind);
    push_number(&mut head, b"Content-Length: ", shown.body.len());
    push_allow(&mut head, shown.status);
    push_challenge(&mut head, shown.status);
    push_step(&mut head, shown.number);
    push_close(&mut head, last);
    head.push(b"\r\n");
    head
}
