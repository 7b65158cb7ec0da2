//! Reading single tokens.
ghost use Rattle.std.specs.Prelude.{◌≡◌, ◌*◌, true, false, is_some};
ghost use Rattle.std.specs.Option.{option_map};
ghost use Rattle.ql_grammar.specs.Grammar as grammar;
ghost use Rattle.ql_grammar.specs.Reads.{Reads, Finds, IsPast, IsSplit, IsNoBeginning, IsStart};

use crate::plain::plain_text;
use crate::stop::{Halt, Stop};
use cm_base::text::Text;
use ql_lex::token::{Kind, Token};
use ql_lex::word::{Word, is_left_out};
use ql_tree::tree::Timestamp;
use std::alloc::Global;

/// The first token and those after it.
pub fn split<'a>(tokens: &'a [Token<'a>]) -> Option<(&'a Token<'a>, &'a [Token<'a>])>
    ensures { IsSplit (λ x. (x.0.now, x.1.now)) tokens.now result }
{
    match tokens {
        [token, rest @ ..] => Some((token, rest)),
        [] => None,
    }
}

/// Whether the token is the word.
fn is_word(token: &Token<'_>, word: Word) -> bool
    ensures { result ≡ is_some (grammar.word_in word token.now.kind) }
{
    match &token.kind {
        Kind::Word(found) => *found as u8 == word as u8,
        Kind::Name(_) | Kind::Quoted(_) | Kind::Number(_) | Kind::Decimal(_) | Kind::Wrong => false,
    }
}

/// The tokens after a word, if it stands at the front.
pub fn past<'a>(tokens: &'a [Token<'a>], word: Word) -> Option<&'a [Token<'a>]>
    ensures { IsPast word (λ x. x.now) tokens.now result }
{
    match split(tokens) {
        Some((token, rest)) => {
            if is_word(token, word) {
                Some(rest)
            } else {
                None
            }
        }
        None => None,
    }
}

/// Whether a word stands at the front.
pub fn at<'a>(tokens: &'a [Token<'a>], word: Word) -> bool
    ensures { IsStart (grammar.keyword word).first tokens.now result }
{
    past(tokens, word).is_some()
}

/// The tokens after a word that must stand at the front.
pub fn word<'a>(tokens: &'a [Token<'a>], word: Word) -> Result<&'a [Token<'a>], Halt<'a>>
    ensures { Finds (grammar.keyword word) (λ x. (tt {0}, x.now)) tokens.now result }
{
    match past(tokens, word) {
        Some(rest) => Ok(rest),
        None => Err(Halt::Here(tokens)),
    }
}

/// What a word that must stand at the front stands for.
pub fn meaning<'a, A: Copy>(
    tokens: &'a [Token<'a>],
    word: Word,
    value: A,
) -> Result<(A, &'a [Token<'a>]), Halt<'a>>
    ensures { Finds (grammar.meaning word value) (λ x. (x.0, x.1.now)) tokens.now result }
{
    match past(tokens, word) {
        Some(rest) => Ok((value, rest)),
        None => Err(Halt::Here(tokens)),
    }
}

fn name_of<'a>(token: &'a Token<'a>) -> Option<&'a str>
    ensures { option_map (λ s. s.now) result ≡ grammar.name_in token.now.kind }
{
    match &token.kind {
        Kind::Name(name) => Some(name.text()),
        Kind::Word(_) | Kind::Quoted(_) | Kind::Number(_) | Kind::Decimal(_) | Kind::Wrong => None,
    }
}

fn plain_of<'a>(token: &'a Token<'a>) -> Option<&'a str>
    ensures { option_map (λ s. s.now) result ≡ grammar.plain_in token.now.kind }
{
    match &token.kind {
        Kind::Name(name) => {
            if is_left_out(name.text().as_bytes()) {
                None
            } else {
                Some(name.text())
            }
        }
        Kind::Word(_) | Kind::Quoted(_) | Kind::Number(_) | Kind::Decimal(_) | Kind::Wrong => None,
    }
}

fn quoted_of<'a>(token: &'a Token<'a>) -> Option<&'a str>
    ensures { option_map (λ s. s.now) result ≡ grammar.quoted_in token.now.kind }
{
    match &token.kind {
        Kind::Quoted(text) => Some(text.text()),
        Kind::Word(_) | Kind::Name(_) | Kind::Number(_) | Kind::Decimal(_) | Kind::Wrong => None,
    }
}

fn number_of<'a>(token: &'a Token<'a>) -> Option<&'a str>
    ensures { option_map (λ s. s.now) result ≡ grammar.number_in token.now.kind }
{
    match &token.kind {
        Kind::Number(digits) => Some(digits.text()),
        Kind::Word(_) | Kind::Name(_) | Kind::Quoted(_) | Kind::Decimal(_) | Kind::Wrong => None,
    }
}

/// Whether the language leaves the token out: CONTAINS, SCORE, JOIN, or a number with a point.
fn is_left_out_token(token: &Token<'_>) -> bool
    ensures { result ≡ grammar.left_out token.now }
{
    match &token.kind {
        Kind::Name(name) => is_left_out(name.text().as_bytes()),
        Kind::Decimal(_) => true,
        Kind::Word(_) | Kind::Quoted(_) | Kind::Number(_) | Kind::Wrong => false,
    }
}

/// Whether a name stands at the front that isn't one of those that the language leaves out.
pub fn at_plain<'a>(tokens: &'a [Token<'a>]) -> bool
    ensures { IsStart grammar.plain_name.first tokens.now result }
{
    match split(tokens) {
        Some((token, _)) => plain_of(token).is_some(),
        None => false,
    }
}

/// Whether a name stands at the front.
pub fn at_name<'a>(tokens: &'a [Token<'a>]) -> bool
    ensures { IsStart grammar.name.first tokens.now result }
{
    match split(tokens) {
        Some((token, _)) => name_of(token).is_some(),
        None => false,
    }
}

/// Whether a text stands at the front.
pub fn at_quoted<'a>(tokens: &'a [Token<'a>]) -> bool
    ensures { IsStart grammar.pattern.first tokens.now result }
{
    match split(tokens) {
        Some((token, _)) => quoted_of(token).is_some(),
        None => false,
    }
}

/// Whether digits stand at the front, with a minus before them or none.
pub fn at_number<'a>(tokens: &'a [Token<'a>]) -> bool
    ensures { IsStart grammar.number.first tokens.now result }
{
    match split(tokens) {
        Some((token, _)) => number_of(token).is_some(),
        None => false,
    }
}

/// Why nothing can begin here that the language has: the token is one that it leaves out, or any other.
pub fn none_begins<'a>(tokens: &'a [Token<'a>]) -> Halt<'a>
    ensures { IsNoBeginning tokens.now result }
{
    match split(tokens) {
        Some((token, _)) => {
            if is_left_out_token(token) {
                Halt::LeftOut(tokens)
            } else {
                Halt::Here(tokens)
            }
        }
        None => Halt::Here(tokens),
    }
}

fn name_at<'a>(tokens: &'a [Token<'a>]) -> Result<(&'a str, &'a [Token<'a>]), Halt<'a>>
    ensures { Finds grammar.name (λ x. (x.0.now, x.1.now)) tokens.now result }
{
    match split(tokens) {
        Some((token, rest)) => match name_of(token) {
            Some(text) => Ok((text, rest)),
            None => Err(Halt::Here(tokens)),
        },
        None => Err(Halt::Here(tokens)),
    }
}

/// A name.
pub fn name<'a>(alloc: Global, tokens: &'a [Token<'a>]) -> Result<(Text, &'a [Token<'a>]), Stop<'a>>
    ensures { Reads grammar.name (λ x. (x.0, x.1.now)) tokens.now result }
{
    let (text, rest) = name_at(tokens)?;
    Ok((Text::from_str(alloc, text)?, rest))
}

fn plain_at<'a>(tokens: &'a [Token<'a>]) -> Result<(&'a str, &'a [Token<'a>]), Halt<'a>>
    ensures { Finds grammar.plain_name (λ x. (x.0.now, x.1.now)) tokens.now result }
{
    match split(tokens) {
        Some((token, rest)) => match plain_of(token) {
            Some(text) => Ok((text, rest)),
            None => Err(Halt::Here(tokens)),
        },
        None => Err(Halt::Here(tokens)),
    }
}

/// A name that isn't one of those that the language leaves out.
pub fn plain<'a>(
    alloc: Global,
    tokens: &'a [Token<'a>],
) -> Result<(Text, &'a [Token<'a>]), Stop<'a>>
    ensures { Reads grammar.plain_name (λ x. (x.0, x.1.now)) tokens.now result }
{
    let (text, rest) = plain_at(tokens)?;
    Ok((Text::from_str(alloc, text)?, rest))
}

fn pattern_at<'a>(tokens: &'a [Token<'a>]) -> Result<(&'a str, &'a [Token<'a>]), Halt<'a>>
    ensures { Finds grammar.pattern (λ x. (x.0.now, x.1.now)) tokens.now result }
{
    match split(tokens) {
        Some((token, rest)) => match quoted_of(token) {
            Some(text) => Ok((text, rest)),
            None => Err(Halt::Here(tokens)),
        },
        None => Err(Halt::Here(tokens)),
    }
}

/// What stands between the quotes of a text, with its backslashes.
pub fn pattern<'a>(
    alloc: Global,
    tokens: &'a [Token<'a>],
) -> Result<(Text, &'a [Token<'a>]), Stop<'a>>
    ensures { Reads grammar.pattern (λ x. (x.0, x.1.now)) tokens.now result }
{
    let (raw, rest) = pattern_at(tokens)?;
    Ok((Text::from_str(alloc, raw)?, rest))
}

fn digits_at<'a>(tokens: &'a [Token<'a>]) -> Result<(&'a str, &'a [Token<'a>]), Halt<'a>>
    ensures { Finds grammar.number (λ x. (x.0.now, x.1.now)) tokens.now result }
{
    match split(tokens) {
        Some((token, rest)) => match number_of(token) {
            Some(text) => Ok((text, rest)),
            None => Err(Halt::Here(tokens)),
        },
        None => Err(Halt::Here(tokens)),
    }
}

/// Digits, with a minus before them or none.
pub fn digits<'a>(
    alloc: Global,
    tokens: &'a [Token<'a>],
) -> Result<(Text, &'a [Token<'a>]), Stop<'a>>
    ensures { Reads grammar.number (λ x. (x.0, x.1.now)) tokens.now result }
{
    let (text, rest) = digits_at(tokens)?;
    Ok((Text::from_str(alloc, text)?, rest))
}

/// A text by the bytes that it stands for.
pub fn quoted<'a>(
    alloc: Global,
    tokens: &'a [Token<'a>],
) -> Result<(Text, &'a [Token<'a>]), Stop<'a>>
    ensures { Reads grammar.quoted (λ x. (x.0, x.1.now)) tokens.now result }
{
    let (text, rest) = pattern_at(tokens)?;
    Ok((plain_text(alloc, text)?, rest))
}

/// A text with its offset.
pub fn moment<'a>(
    alloc: Global,
    tokens: &'a [Token<'a>],
) -> Result<(Timestamp, &'a [Token<'a>]), Stop<'a>>
    ensures { Reads grammar.moment (λ x. (x.0, x.1.now)) tokens.now result }
{
    match split(tokens) {
        Some((token, rest)) => match quoted_of(token) {
            Some(text) => {
                let text = plain_text(alloc, text)?;
                Ok((
                    Timestamp {
                        text,
                        at: token.at as u64,
                    },
                    rest,
                ))
            }
            None => Err(Stop::At(Halt::Here(tokens))),
        },
        None => Err(Stop::At(Halt::Here(tokens))),
    }
}
