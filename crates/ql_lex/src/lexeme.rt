//! The token at the front of a text.
ghost use Rattle.std.specs.Prelude.{◌≡◌, ◌+◌, ◌-◌, ◌<◌, ◌==◌, [], ◌∷◌, length, take, drop, slice_index, true, false, Some, None, IfSome, ◌*◌, ◌^◌, ◌⊎◌};
ghost use Rattle.std.specs.Str.{IsCharBoundary};
ghost use Rattle.std.specs.List.{prefix_len};
ghost use Rattle.ql_lex.specs.Lexes as spec;
ghost use Rattle.ql_lex.specs.declared.token.Kind.TheVariants as kinds;

use crate::token::{Kind, Piece};
use crate::word::{Word, keyword_of};

/// Whether the byte is a blank, a tab or a line end.
fn is_blank(b: u8) -> bool
    ensures { result ≡ spec.is_blank b }
{
    b == b' ' || b == b'\t' || b == b'\n' || b == b'\r'
}

fn is_digit(b: u8) -> bool
    ensures { result ≡ spec.is_digit b }
{
    47 < b && b < 58
}

fn begins_name(b: u8) -> bool
    ensures { result ≡ spec.begins_name b }
{
    (64 < b && b < 91) || (96 < b && b < 123) || b == b'_'
}

fn is_name_byte(b: u8) -> bool
    ensures { result ≡ spec.is_name_byte b }
{
    begins_name(b) || is_digit(b) || b == b':'
}

fn is_escapable(b: u8) -> bool
    ensures { result ≡ spec.is_escapable b }
{
    b == b'\'' || b == b'\\' || b == b'%' || b == b'_'
}

fn blank_bytes(text: &[u8]) -> usize
    ensures { result ≡ spec.blanks text.now }
{
    text.iter().take_while(|b| is_blank(**b)).count()
}

fn digit_bytes(text: &[u8]) -> usize
    ensures { result ≡ prefix_len spec.is_digit text.now }
{
    text.iter().take_while(|b| is_digit(**b)).count()
}

fn name_bytes(text: &[u8]) -> usize
    ensures { result ≡ prefix_len spec.is_name_byte text.now }
{
    text.iter().take_while(|b| is_name_byte(**b)).count()
}

/// How many blanks stand at the front.
pub fn blanks(text: &str) -> usize
    ensures value { result ≡ spec.blanks text.now }
    ensures cut { IsCharBoundary text.now result }
{
    blank_bytes(text.as_bytes())
}

/// How many digits stand at the front.
fn digits(text: &str) -> usize
    ensures value { result ≡ prefix_len spec.is_digit text.now }
    ensures cut { IsCharBoundary text.now result }
{
    digit_bytes(text.as_bytes())
}

/// How many letters, digits, `_` and `:` stand at the front.
fn name_len(text: &str) -> usize
    ensures value { result ≡ prefix_len spec.is_name_byte text.now }
    ensures cut { IsCharBoundary text.now result }
{
    name_bytes(text.as_bytes())
}

/// How many bytes stand before the quote that closes a text.
fn closing(text: &[u8]) -> Option<usize>
    ensures value { result ≡ spec.closing false text.now }
    ensures within { IfSome result (λ n. n < length text.now) }
{
    let mut n = 0;
    let mut escaped = false;
    let mut left = text;
    'bytes: while let [b, rest @ ..] = left {
        if !escaped && *b == b'\'' {
            return Some(n);
        }
        escaped = !escaped && *b == b'\\';
        n += 1;
        left = rest;
    }
    None
}

/// The offset of the first backslash that may not stand where it does, where the text's first byte has the offset `at`.
pub fn wrong_escape(text: &[u8], at: usize) -> Option<usize>
    requires { at + length text.now < 2 ^ 64 }
    ensures { result ≡ spec.wrong_escape at false text.now }
{
    let mut n = at;
    let mut escaped = false;
    let mut left = text;
    'bytes: while let [b, rest @ ..] = left {
        if escaped && !is_escapable(*b) {
            return Some(n - 1);
        }
        escaped = !escaped && *b == b'\\';
        n += 1;
        left = rest;
    }
    None
}

/// The first bytes of a text.
fn front<'a>(text: &'a str, n: usize) -> &'a str
    requires { IsCharBoundary text.now n }
    ensures { result.now ≡ take n text.now }
{
    &text[..n]
}

/// The bytes after the first ones.
pub fn after<'a>(text: &'a str, n: usize) -> &'a str
    requires { IsCharBoundary text.now n }
    ensures { result.now ≡ drop n text.now }
{
    &text[n..]
}

/// A keyword, or else a name.
fn name_lexeme<'a>(text: &'a str) -> (Kind<'a>, usize)
    requires { spec.begins_name (slice_index text.now 0) ≡ true }
    ensures value { result ≡ spec.name_lexeme (take (prefix_len spec.is_name_byte text.now) text.now) }
    ensures cut { IsCharBoundary text.now result.1 }
    ensures some { 0 < result.1 }
{
    let n = name_len(text);
    let name = front(text, n);
    match keyword_of(name.as_bytes()) {
        Some(word) => (Kind::Word(word), n),
        None => (Kind::Name(Piece::new(name)), n),
    }
}

/// A text, from its first quote on.
fn quoted_lexeme<'a>(text: &'a str) -> (Kind<'a>, usize)
    requires some { 0 < length text.now }
    requires quote { slice_index text.now 0 ≡ 39 }
    ensures value { result ≡ spec.quoted_lexeme (drop 1 text.now) }
    ensures cut { (result.0 ≡ kinds.Wrong) ⊎ IsCharBoundary text.now result.1 }
    ensures some { 0 < result.1 }
{
    let bytes = after(text, 1);
    match closing(bytes.as_bytes()) {
        Some(n) => (Kind::Quoted(Piece::new(front(bytes, n))), n + 2),
        None => (Kind::Wrong, 1),
    }
}

/// The byte at a place, or 0 behind the end.
fn byte_at(text: &str, n: usize) -> u8
    ensures { result ≡ slice_index text.now n }
{
    match text.as_bytes().get(n) {
        Some(b) => *b,
        None => 0,
    }
}

/// How many bytes a minus at the front takes.
fn minus_len(text: &str) -> usize
    ensures value { result ≡ spec.minus_len text.now }
    ensures cut { IsCharBoundary text.now result }
{
    if byte_at(text, 0) == b'-' { 1 } else { 0 }
}

/// How many bytes a minus and digits at the front take.
fn whole_len(text: &str) -> usize
    ensures value { result ≡ spec.whole_len text.now }
    ensures cut { IsCharBoundary text.now result }
{
    let minus = minus_len(text);
    minus + digits(after(text, minus))
}

/// How many digits stand behind a point at the front.
fn fraction_len(text: &str) -> usize
    ensures value { result ≡ spec.fraction_len text.now }
    ensures cut { 0 < result → IsCharBoundary text.now (1 + result) }
{
    if byte_at(text, 0) == b'.' {
        digits(after(text, 1))
    } else {
        0
    }
}

/// Digits, and where a point and digits follow them, these too.
fn digits_lexeme<'a>(text: &'a str, whole: usize, fraction: usize) -> (Kind<'a>, usize)
    requires room { whole + 1 + fraction < 2 ^ 64 }
    requires whole { IsCharBoundary text.now whole }
    requires all { 0 < fraction → IsCharBoundary text.now (whole + 1 + fraction) }
    ensures value { result ≡ spec.digits_lexeme text.now whole fraction }
    ensures cut { IsCharBoundary text.now result.1 }
    ensures some { 0 < whole → 0 < result.1 }
{
    if fraction == 0 {
        (Kind::Number(Piece::new(front(text, whole))), whole)
    } else {
        let n = whole + 1 + fraction;
        (Kind::Decimal(Piece::new(front(text, n))), n)
    }
}

/// A number, from its minus or its first digit on.
fn number_lexeme<'a>(text: &'a str) -> (Kind<'a>, usize)
    ensures value { result ≡ spec.number_lexeme text.now }
    ensures cut { (result.0 ≡ kinds.Wrong) ⊎ IsCharBoundary text.now result.1 }
    ensures some { 0 < result.1 }
{
    let whole = whole_len(text);
    if whole == minus_len(text) {
        return (Kind::Wrong, 1);
    }
    digits_lexeme(text, whole, fraction_len(after(text, whole)))
}

fn sign(word: Word, n: usize) -> (Kind<'static>, usize)
    ensures { result ≡ spec.sign_lexeme word n }
{
    (Kind::Word(word), n)
}

/// A sign, by its byte and the byte after it.
fn sign_at(b: u8, next: u8) -> (Kind<'static>, usize)
    ensures value { result ≡ spec.sign_at b next }
    ensures some { 0 < result.1 }
{
    match (b, next) {
        (b'*', _) => sign(Word::Star, 1),
        (b'.', _) => sign(Word::Dot, 1),
        (b',', _) => sign(Word::Comma, 1),
        (b'(', _) => sign(Word::Open, 1),
        (b')', _) => sign(Word::Close, 1),
        (b'=', _) => sign(Word::Equal, 1),
        (b'<', b'>') => sign(Word::NotEqual, 2),
        (b'<', b'=') => sign(Word::LessEqual, 2),
        (b'<', _) => sign(Word::Less, 1),
        (b'>', b'=') => sign(Word::GreaterEqual, 2),
        (b'>', _) => sign(Word::Greater, 1),
        _ => (Kind::Wrong, 1),
    }
}

/// A sign, or a byte that no token has.
fn sign_lexeme<'a>(text: &'a str, first: u8) -> (Kind<'a>, usize)
    requires { first ≡ slice_index text.now 0 }
    ensures value { result ≡ spec.sign_at (slice_index text.now 0) (slice_index text.now 1) }
    ensures cut { (result.0 ≡ kinds.Wrong) ⊎ IsCharBoundary text.now result.1 }
    ensures some { 0 < result.1 }
{
    sign_at(first, byte_at(text, 1))
}

/// The token at the front of a text that begins with no blank, and how many bytes it takes.
#[tactic(auto, unfolding(crate::specs::Lexes::lexeme))]
pub fn lexeme<'a>(text: &'a str) -> (Kind<'a>, usize)
    requires { 0 < length text.now }
    ensures value { result ≡ spec.lexeme text.now }
    ensures cut { (result.0 ≡ kinds.Wrong) ⊎ IsCharBoundary text.now result.1 }
    ensures some { 0 < result.1 }
{
    let first = byte_at(text, 0);
    if begins_name(first) {
        return name_lexeme(text);
    }
    if first == b'\'' {
        return quoted_lexeme(text);
    }
    if is_digit(first) || first == b'-' {
        return number_lexeme(text);
    }
    sign_lexeme(text, first)
}
