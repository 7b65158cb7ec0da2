//! What the fields of a head say of its body, from their places in the text.
ghost use Rattle.std.specs.Prelude.{◌≡◌, ◌≤◌, ◌==◌, ◌&&◌, not, ℕ, List, [], ◌∷◌, ◌++◌, length, All, map, codes, if◌then◌else◌, true};
ghost use Rattle.std.specs.List.{list_all, list_any};
ghost use Rattle.std.specs.Char.{is_ascii_digit};
ghost use Rattle.std.specs.Prelude.{Result};
ghost use Rattle.httparse.specs.Spans.{IsHeaderWithin, header_bytes};
ghost use Rattle.http_grammar.specs.Request.{Head};
ghost use Rattle.http_grammar.specs.Fields.{same_word, values_named, is_visible, is_host, has_good_host, is_decimal, length_of_value, sized, by_length, by_coding, framing, head_framing, promises_body, expects_continue};
ghost use Rattle.http_wire.specs.Found.{Finds, fields_at, value_named, decimal_below, below_half};

use crate::body::BODY_LIMIT;
use http_grammar::{Framing, HttpFault, same_word};
use httparse::spans::{HeaderSpan, Span};
use std::str;

/// What the fields with one name are.
#[derive(Clone, Copy)]
pub enum Found {
    Absent,
    /// One field, with the place of its value.
    One(Span),
    Several,
}

fn is_named(text: &[u8], field: &HeaderSpan, name: &[u8]) -> bool
    requires { IsHeaderWithin (length text.now) field.now }
    ensures { result ≡ same_word (header_bytes text.now field.now).0 name.now }
{
    same_word(field.name.of(text), name)
}

// What was found, with one more field.
fn with_field(text: &[u8], found: Found, field: &HeaderSpan, name: &[u8]) -> Found
    requires { IsHeaderWithin (length text.now) field.now }
    ensures { (values : List (List ℕ)) → Finds text.now values found
        → Finds text.now (values ++ value_named name.now (header_bytes text.now field.now)) result }
{
    if !is_named(text, field, name) {
        return found;
    }
    match found {
        Found::Absent => Found::One(field.value),
        Found::One(_) => Found::Several,
        Found::Several => Found::Several,
    }
}

/// The value of the fields with this name.
pub fn find(text: &[u8], fields: &[HeaderSpan], name: &[u8]) -> Found
    requires { All (IsHeaderWithin (length text.now)) fields.now }
    ensures { Finds text.now (values_named name.now (fields_at text.now fields.now)) result }
{
    let mut found = Found::Absent;
    for field in fields {
        found = with_field(text, found, field, name);
    }
    found
}

fn is_visible(b: u8) -> bool
    ensures { result ≡ is_visible b }
{
    b' ' < b && b < 127
}

fn are_visible(value: &[u8]) -> bool
    ensures { result ≡ list_all is_visible value.now }
{
    value.iter().all(|b| is_visible(*b))
}

#[tactic(auto, unfolding(http_grammar::specs::Fields::is_host))]
fn is_host(value: &[u8]) -> bool
    ensures { result ≡ is_host value.now }
{
    1 <= value.len() && value.len() <= 255 && are_visible(value)
}

// Whether an HTTP/1.1 head has its one Host field.
fn has_good_host(text: &[u8], minor: u8, fields: &[HeaderSpan]) -> bool
    requires { All (IsHeaderWithin (length text.now)) fields.now }
    ensures { result ≡ has_good_host minor (values_named (codes "host") (fields_at text.now fields.now)) }
{
    if minor == 0 {
        return true;
    }
    match find(text, fields, b"host") {
        Found::One(value) => is_host(value.of(text)),
        Found::Absent => false,
        Found::Several => false,
    }
}

fn are_digits(value: &[u8]) -> bool
    ensures { result ≡ list_all is_ascii_digit value.now }
{
    value.iter().all(|b| b.is_ascii_digit())
}

fn is_decimal(value: &[u8]) -> bool
    ensures { result ≡ is_decimal value.now }
{
    0 < value.len() && are_digits(value)
}

// A decimal number below 2^64.
fn parsed(value: &str) -> Option<u64>
    ensures { result ≡ decimal_below 64 value.now }
{
    if !is_decimal(value.as_bytes()) {
        return None;
    }
    match value.parse::<u64>() {
        Ok(n) => Some(n),
        Err(_) => None,
    }
}

fn number(value: &[u8]) -> Option<u64>
    ensures { result ≡ decimal_below 64 value.now }
{
    match str::from_utf8(value) {
        Ok(value) => parsed(value),
        Err(_) => None,
    }
}

fn below_half(n: Option<u64>) -> Option<u64>
    ensures { result ≡ below_half n }
{
    match n {
        Some(n) => { if n < 1 << 63 { Some(n) } else { None } }
        None => None,
    }
}

fn length_of_value(value: &[u8]) -> Option<u64>
    ensures { result ≡ length_of_value value.now }
{
    below_half(number(value))
}

#[tactic(auto, unfolding(http_grammar::specs::Fields::sized, http_grammar::specs::Limits::body_limit))]
fn sized(length: Option<u64>) -> Result<Framing, HttpFault>
    ensures { result ≡ sized length }
{
    match length {
        None => Err(HttpFault::BadLength),
        Some(n) if n > BODY_LIMIT => Err(HttpFault::LongBody),
        Some(n) => Ok(Framing::Sized(n)),
    }
}

// By the Content-Length fields alone.
fn by_length(text: &[u8], fields: &[HeaderSpan]) -> Result<Framing, HttpFault>
    requires { All (IsHeaderWithin (length text.now)) fields.now }
    ensures { result ≡ by_length (values_named (codes "content-length") (fields_at text.now fields.now)) }
{
    match find(text, fields, b"content-length") {
        Found::Absent => Ok(Framing::Sized(0)),
        Found::One(value) => sized(length_of_value(value.of(text))),
        Found::Several => Err(HttpFault::BadLength),
    }
}

fn by_coding(value: &[u8]) -> Result<Framing, HttpFault>
    ensures { result ≡ by_coding (value.now ∷ []) }
{
    if same_word(value, b"chunked") {
        Ok(Framing::Chunked)
    } else {
        Err(HttpFault::Coding)
    }
}

/// How the body behind a head with these fields is framed, or the fault of the head.
#[tactic(auto, unfolding(http_grammar::specs::Fields::head_framing))]
pub fn framing_of(text: &[u8], minor: u8, fields: &[HeaderSpan]) -> Result<Framing, HttpFault>
    requires { All (IsHeaderWithin (length text.now)) fields.now }
    ensures { (head : Head) → head.minor ≡ minor → head.fields ≡ fields_at text.now fields.now → result
        ≡ head_framing head }
{
    if has_good_host(text, minor, fields) {
        framing(text, minor, fields)
    } else {
        Err(HttpFault::BadHead)
    }
}

// By the fields of both kinds.
fn framing(text: &[u8], minor: u8, fields: &[HeaderSpan]) -> Result<Framing, HttpFault>
    requires { All (IsHeaderWithin (length text.now)) fields.now }
    ensures { result ≡ framing minor (values_named (codes "transfer-encoding") (fields_at text.now fields.now)) (values_named (codes "content-length") (fields_at text.now fields.now)) }
{
    match find(text, fields, b"transfer-encoding") {
        Found::Absent => by_length(text, fields),
        Found::One(value) => match find(text, fields, b"content-length") {
            Found::Absent => one_coding(minor, value.of(text)),
            _ => Err(HttpFault::BadLength),
        },
        Found::Several => match find(text, fields, b"content-length") {
            Found::Absent => several_codings(minor),
            _ => Err(HttpFault::BadLength),
        },
    }
}

// One Transfer-Encoding, and no Content-Length.
fn one_coding(minor: u8, value: &[u8]) -> Result<Framing, HttpFault>
    ensures { result ≡ framing minor (value.now ∷ []) [] }
{
    if minor == 0 {
        Err(HttpFault::BadLength)
    } else {
        by_coding(value)
    }
}

// Several of them, and no Content-Length.
fn several_codings(minor: u8) -> Result<Framing, HttpFault>
    ensures { (a b : List ℕ) (rest : List (List ℕ)) → result ≡ framing minor (a ∷ b ∷ rest) [] }
{
    if minor == 0 {
        Err(HttpFault::BadLength)
    } else {
        Err(HttpFault::Coding)
    }
}

// Whether a field is an Expect of the interim reply.
fn any_expects(text: &[u8], fields: &[HeaderSpan]) -> bool
    requires { All (IsHeaderWithin (length text.now)) fields.now }
    ensures { result ≡ list_any (λ s. same_word (header_bytes text.now s).0 (codes "expect") && same_word (header_bytes text.now s).1 (codes "100-continue")) fields.now }
{
    fields.iter().any(|field| expects(text, field))
}

fn has_expect(text: &[u8], fields: &[HeaderSpan]) -> bool
    requires { All (IsHeaderWithin (length text.now)) fields.now }
    ensures { result ≡ list_any (λ v. same_word v (codes "100-continue")) (values_named (codes "expect") (fields_at text.now fields.now)) }
{
    any_expects(text, fields)
}

fn expects(text: &[u8], field: &HeaderSpan) -> bool
    requires { IsHeaderWithin (length text.now) field.now }
    ensures { result ≡ (same_word (header_bytes text.now field.now).0 (codes "expect") && same_word (header_bytes text.now field.now).1 (codes "100-continue")) }
{
    is_named(text, field, b"expect") && same_word(field.value.of(text), b"100-continue")
}

fn promises_body(framing: Framing) -> bool
    ensures { result ≡ promises_body (Ok framing) }
{
    match framing {
        Framing::Sized(n) => 0 < n,
        Framing::Chunked => true,
    }
}

/// Whether the interim reply belongs to a request with this head, whose body is framed so.
#[tactic(auto, unfolding(http_grammar::specs::Fields::expects_continue))]
pub fn expects_continue(text: &[u8], minor: u8, fields: &[HeaderSpan], framing: Framing) -> bool
    requires { All (IsHeaderWithin (length text.now)) fields.now }
    ensures { (head : Head) → head.minor ≡ minor → head.fields ≡ fields_at text.now fields.now → head_framing head
        ≡ Ok framing → result ≡ expects_continue head }
{
    minor != 0 && promises_body(framing) && has_expect(text, fields)
}
