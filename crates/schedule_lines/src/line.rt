//! One line of a script.
ghost use Rattle.std.specs.Prelude.{◌≡◌, ◌≤◌, IfOk, bytes_eq, map, true};
ghost use Rattle.std.specs.List.{list_all, slice_split};
ghost use Rattle.schedule_lines.specs.declared.line.LineStop.TheVariants.{Memory};
ghost use Rattle.schedule_lines.specs.Lines.{Reads, act_of, asked_by, has_name_length, is_blank, is_letter_or_digit, is_name, is_within, session_of, step_by, step_of, write_of};

use crate::step::{Act, Step};
use cm_base::decimal::read_u64;
use cm_base::text::Text;
use std::alloc::{AllocError, AllocFailed, Global};
use std::str;

/// The most lines of a script.
const MOST_LINES: u64 = 10_000;

/// The most bytes of a line, without its line feed.
pub(crate) const LONGEST_LINE: usize = 300;

/// The greatest number of a session.
const LAST_SESSION: u64 = 1000;

/// The most bytes of a folder's name.
const LONGEST_NAME: usize = 255;

/// Why a line is not read.
#[derive(Clone, Copy, Debug, PartialEq, Eq)]
pub(crate) enum LineStop {
    /// It is no line of a script.
    NotValid,
    /// There was no memory.
    Memory,
}

impl From<AllocError> for LineStop {
    ghost from_gives = { λ _ e. e ≡ Memory };

    fn from(_e: AllocError) -> LineStop {
        LineStop::Memory
    }
}

impl<T: Drop> From<AllocFailed<T>> for LineStop {
    ghost from_gives = { λ _ e. e ≡ Memory };

    fn from(_e: AllocFailed<T>) -> LineStop {
        LineStop::Memory
    }
}

fn session(word: &[u8]) -> Option<u32>
    ensures { result ≡ session_of word.now }
{
    match read_u64(word) {
        None => None,
        Some(n) => {
            if 1 <= n && n <= LAST_SESSION {
                Some(n as u32)
            } else {
                None
            }
        }
    }
}

fn is_letter_or_digit(b: u8) -> bool
    ensures { result ≡ is_letter_or_digit b }
{
    b.is_ascii_lowercase() || b.is_ascii_uppercase() || b.is_ascii_digit()
}

fn has_name_length(name: &[u8]) -> bool
    ensures { result ≡ has_name_length name.now }
{
    1 <= name.len() && name.len() <= LONGEST_NAME
}

fn are_letters_or_digits(name: &[u8]) -> bool
    ensures { result ≡ list_all is_letter_or_digit name.now }
{
    name.iter().all(|b| is_letter_or_digit(*b))
}

fn is_name(name: &[u8]) -> bool
    ensures { result ≡ is_name name.now }
{
    has_name_length(name) && are_letters_or_digits(name)
}

fn is_word(word: &[u8], wanted: &str) -> bool
    ensures { result ≡ bytes_eq word.now wanted.now }
{
    word == wanted.as_bytes()
}

fn act(word: &[u8]) -> Option<Act>
    ensures { result ≡ act_of word.now }
{
    if is_word(word, "open") {
        return Some(Act::Open);
    }
    if is_word(word, "look") {
        return Some(Act::Look);
    }
    if is_word(word, "ask") {
        return Some(Act::Ask);
    }
    None
}

fn write(alloc: Global, word: &[u8], name: &[u8]) -> Result<Act, LineStop>
    ensures { Reads result (write_of word.now name.now) }
{
    if !is_word(word, "write") || !is_name(name) {
        return Err(LineStop::NotValid);
    }
    match str::from_utf8(name) {
        Ok(name) => {
            let name = Text::from_str(alloc, name)?;
            Ok(Act::Write(name))
        }
        Err(_) => Err(LineStop::NotValid),
    }
}

fn step(session: Option<u32>, act: Option<Act>) -> Option<Step>
    ensures { result ≡ step_by session act }
{
    match (session, act) {
        (Some(session), Some(act)) => Some(Step { session, act }),
        _ => None,
    }
}

fn cut(alloc: Global, line: &[u8]) -> Result<Vec<&[u8]>, AllocError>
    ensures { IfOk result (λ v. map (λ w. w.now) v.items ≡ slice_split is_blank line.now) }
{
    line.split(|b| *b == b' ').collect(alloc)
}

fn with_name(
    alloc: Global,
    session: Option<u32>,
    word: &[u8],
    name: &[u8],
) -> Result<Step, LineStop>
    ensures { Reads result (step_by session (write_of word.now name.now)) }
{
    let Some(session) = session else {
        return Err(LineStop::NotValid);
    };
    let act = write(alloc, word, name)?;
    Ok(Step { session, act })
}

fn of_words(alloc: Global, words: &[&[u8]]) -> Result<Step, LineStop>
    ensures { Reads result (step_of (map (λ w. w.now) words.now)) }
{
    match words {
        [] => Err(LineStop::NotValid),
        [_] => Err(LineStop::NotValid),
        [word, number] => match step(session(number), act(word)) {
            Some(step) => Ok(step),
            None => Err(LineStop::NotValid),
        },
        [word, number, name] => with_name(alloc, session(number), word, name),
        [_, _, _, _, ..] => Err(LineStop::NotValid),
    }
}

#[tactic(auto, unfolding(crate::specs::Limits::most_lines, crate::specs::Limits::longest_line))]
fn is_within(number: u64, line: &[u8]) -> bool
    ensures within { result ≡ is_within number line.now }
    ensures few { result ≡ true → number ≤ 10000 }
{
    number <= MOST_LINES && line.len() <= LONGEST_LINE
}

/// What the line with this number asks for.
pub(crate) fn read_line(alloc: Global, number: u64, line: &[u8]) -> Result<Step, LineStop>
    ensures reads { Reads result (asked_by number line.now) }
    ensures few { IfOk result (λ _. number ≤ 10000) }
{
    if !is_within(number, line) {
        return Err(LineStop::NotValid);
    }
    let words = cut(alloc, line)?;
    of_words(alloc, &words)
}
