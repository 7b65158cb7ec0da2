//! Texts against the patterns of LIKE, in one pass for each run and without memory.
ghost use Rattle.std.specs.Prelude.{◌≡◌};
ghost use Rattle.std.specs.Option.{option_copied};
ghost use Rattle.core.specs.Fmt.{is_char_start};
ghost use Rattle.ql_eval.specs.Likes.{behind_run, likes, next_start, past_byte, past_character};
ghost use Rattle.ql_eval.specs.Leads.{Leads, Misses};

use ql_bind::bound::Piece;

fn is_start(b: u8) -> bool
    ensures { result ≡ is_char_start b }
{
    b < 128 || 192 <= b
}

fn next_start<'a>(text: &'a [u8]) -> &'a [u8]
    ensures { result.now ≡ next_start text.now }
{
    match text {
        [] => text,
        [b, rest @ ..] => { if is_start(*b) { text } else { next_start(rest) } }
    }
}

fn past_character<'a>(text: &'a [u8]) -> Option<&'a [u8]>
    ensures { option_copied result ≡ past_character text.now }
{
    match text {
        [] => None,
        [b, rest @ ..] => {
            if is_start(*b) {
                Some(next_start(rest))
            } else {
                None
            }
        }
    }
}

fn past_byte<'a>(byte: u8, text: &'a [u8]) -> Option<&'a [u8]>
    ensures { option_copied result ≡ past_byte byte text.now }
{
    match text {
        [] => None,
        [b, rest @ ..] => { if *b == byte { Some(rest) } else { None } }
    }
}

/// Where a pattern and a text lead up to the next run.
enum Lead<'a> {
    /// The whole pattern fits the whole text.
    Fits,
    /// The pattern does not fit here; it may behind the next byte.
    Differs,
    /// The text is too short, here and behind each of its bytes.
    Short,
    /// They fit up to a run: what stands behind it, and the text that is left.
    Run(&'a [Piece], &'a [u8]),
}

fn missed<'a>(text: &'a [u8]) -> Lead<'a>
    ensures { Misses text.now result }
{
    if text.is_empty() {
        Lead::Short
    } else {
        Lead::Differs
    }
}

fn upto_run<'a>(pieces: &'a [Piece], text: &'a [u8]) -> Lead<'a>
    ensures { Leads pieces.now text.now result }
{
    match pieces {
        [] => {
            if text.is_empty() {
                Lead::Fits
            } else {
                Lead::Differs
            }
        }
        [piece, rest @ ..] => match piece {
            Piece::Run => Lead::Run(rest, text),
            Piece::Character => match past_character(text) {
                Some(left) => upto_run(rest, left),
                None => missed(text),
            },
            Piece::Byte(byte) => match past_byte(*byte, text) {
                Some(left) => upto_run(rest, left),
                None => missed(text),
            },
        },
    }
}

// Whether what is left behind some run of bytes fits.
fn behind_run(pieces: &[Piece], text: &[u8]) -> bool
    ensures { result ≡ behind_run (likes pieces.now) text.now }
{
    match upto_run(pieces, text) {
        Lead::Fits => true,
        Lead::Short => false,
        Lead::Run(rest, left) => behind_run(rest, left),
        Lead::Differs => match text {
            [] => false,
            [_, left @ ..] => behind_run(pieces, left),
        },
    }
}

/// Whether the text is like the pattern. Takes no memory.
pub(crate) fn likes(pieces: &[Piece], text: &[u8]) -> bool
    ensures { result ≡ likes pieces.now text.now }
{
    match upto_run(pieces, text) {
        Lead::Fits => true,
        Lead::Short | Lead::Differs => false,
        Lead::Run(rest, left) => behind_run(rest, left),
    }
}
