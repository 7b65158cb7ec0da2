//! Timestamps of queries.
ghost use Rattle.std.specs.Prelude.{◌≡◌};
ghost use Rattle.ql_bind.specs.Moments.{fits, has_form, is_timestamp, moment_of};

use jiff::Timestamp;

fn fits(letter: u8, b: u8) -> bool
    ensures { result ≡ fits letter b }
{
    match letter {
        b'0' => b.is_ascii_digit(),
        b'+' => b == b'+' || b == b'-',
        _ => b == letter,
    }
}

fn has_form(form: &[u8], text: &[u8]) -> bool
    ensures { result ≡ has_form form.now text.now }
{
    match form {
        [] => text.is_empty(),
        [letter, letters @ ..] => match text {
            [] => false,
            [b, bytes @ ..] => fits(*letter, *b) && has_form(letters, bytes),
        },
    }
}

fn is_timestamp(text: &[u8]) -> bool
    ensures { result ≡ is_timestamp text.now }
{
    has_form(b"0000-00-00T00:00:00.000Z", text) || has_form(b"0000-00-00T00:00:00.000+00:00", text)
}

/// The milliseconds since 1970, UTC, of a timestamp. Takes no memory.
pub(crate) fn moment_of(text: &str) -> Option<i64>
    ensures { result ≡ moment_of text.now }
{
    if !is_timestamp(text.as_bytes()) {
        return None;
    }
    match text.parse::<Timestamp>() {
        Ok(timestamp) => Some(timestamp.as_millisecond()),
        Err(_) => None,
    }
}
