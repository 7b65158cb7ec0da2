//! The lines of a part's head.
ghost use Rattle.std.specs.Prelude.{◌≡◌, ◌<◌, ◌+◌, ◌==◌, option_map, take, drop, length, IfSome};
ghost use Rattle.std.specs.List.{position_or_len};
ghost use Rattle.form_parts.specs.Heads.{line_at};

use field_params::token::after_byte;

/// A line, and what stands behind its end.
#[derive(Clone, Copy)]
pub struct Line<'a> {
    pub text: &'a [u8],
    pub rest: &'a [u8],
}

// The bytes before the first CR, and those behind it.
fn cut(text: &[u8]) -> (&[u8], &[u8])
    ensures before { result.0.now ≡ take (position_or_len (λ b. b == 13) text.now) text.now }
    ensures after { result.1.now ≡ drop (position_or_len (λ b. b == 13) text.now + 1) text.now }
    ensures shorter { 0 < length text.now → length result.1.now < length text.now }
{
    match text.iter().position(|&b| b == b'\r') {
        Some(i) => (&text[..i], &text[i + 1..]),
        None => (text, &[]),
    }
}

/// The first line, which ends in CR LF; none where a CR stands without an LF.
pub fn line_at(text: &[u8]) -> Option<Line<'_>>
    ensures value { option_map (λ l. (l.text.now, l.rest.now)) result ≡ line_at text.now }
    ensures shorter { IfSome result (λ l. length l.rest.now < length text.now) }
{
    let (line, more) = cut(text);
    match after_byte(b'\n', more) {
        None => None,
        Some(rest) => Some(Line { text: line, rest }),
    }
}
