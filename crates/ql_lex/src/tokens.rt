//! The tokens of a text.
ghost use Rattle.std.specs.Prelude.{◌≡◌, ℕ, ◌+◌, ◌-◌, ◌*◌, ◌^◌, ◌<◌, ◌≤◌, ◌==◌, List, [], ◌∷◌, ◌++◌, length, take, drop, true, false, Some, None, IfOk};
ghost use Rattle.ql_lex.specs.Lexes as spec;
ghost use Rattle.ql_lex.specs.Steps.{IsStep};
ghost use Rattle.ql_lex.specs.declared.token.Token.{Token};

use crate::lexeme::{after, blanks, lexeme, wrong_escape};
use crate::token::{Kind, Token};
use std::alloc::{AllocError, Global};

/// One step of reading tokens.
#[derive(Drop)]
pub enum Step<'a> {
    /// No token begins before the limit.
    End,
    /// A wrong token, behind which nothing is read.
    Last(Token<'a>),
    /// A text, and the backslash that may not stand in it.
    Broken(Token<'a>, Token<'a>),
    /// A token, the text after it and its offset.
    Next(Token<'a>, &'a str, usize),
}

/// The offset of the backslash that may not stand in a token.
fn broken_at(kind: &Kind<'_>, at: usize) -> Option<usize>
    requires { at < 2 ^ 62 }
    ensures { result ≡ spec.broken_at kind.now at }
{
    match kind {
        Kind::Quoted(piece) => wrong_escape(piece.text().as_bytes(), at + 1),
        Kind::Word(_) | Kind::Name(_) | Kind::Number(_) | Kind::Decimal(_) | Kind::Wrong => None,
    }
}

/// Whether no token can stand there.
fn is_wrong(kind: &Kind<'_>) -> bool
    ensures { result ≡ spec.is_wrong kind.now }
{
    match kind {
        Kind::Wrong => true,
        Kind::Word(_) | Kind::Name(_) | Kind::Quoted(_) | Kind::Number(_) | Kind::Decimal(_) =>
            false,
    }
}

/// The first token of a text at the offset `at`, if one begins before the limit.
fn first_token<'a>(text: &'a str, at: usize, limit: usize) -> Step<'a>
    requires room { at + length text.now < 2 ^ 63 }
    requires bound { limit < 2 ^ 62 }
    ensures { IsStep limit at text.now result }
{
    let n = blanks(text);
    let rest = after(text, n);
    let place = at + n;
    if rest.is_empty() || place >= limit {
        return Step::End;
    }
    let (kind, size) = lexeme(rest);
    if is_wrong(&kind) {
        return Step::Last(Token { kind, at: place });
    }
    match broken_at(&kind, place) {
        Some(broken) => Step::Broken(
            Token { kind, at: place },
            Token {
                kind: Kind::Wrong,
                at: broken,
            },
        ),
        None => Step::Next(Token { kind, at: place }, after(rest, size), place + size),
    }
}

/// The tokens of a text that begin before the limit. The last one is wrong where the text has a fault that no token can have: a byte
/// with which none begins, a text that isn't closed, at its quote, or a backslash that may not stand in a text, behind it.
pub fn tokens<'a>(alloc: Global, text: &'a str, limit: usize) -> Result<Vec<Token<'a>>, AllocError>
    requires { limit < 2 ^ 62 }
    ensures { IfOk result (λ all. spec.Lexes limit 0 text.now all.items) }
{
    let mut all = Vec::new(alloc);
    let mut rest = text;
    let mut at = 0;
    'tokens: loop {
        match first_token(rest, at, limit) {
            Step::End => return Ok(all),
            Step::Last(token) => {
                all.push(token)?;
                return Ok(all);
            }
            Step::Broken(token, wrong) => {
                all.push(token)?;
                all.push(wrong)?;
                return Ok(all);
            }
            Step::Next(token, left, place) => {
                all.push(token)?;
                rest = left;
                at = place;
            }
        }
    }
}

/// A text has one list of tokens.
pub fn tokens_are_one()
    ensures { (limit n : ℕ) (text : List ℕ) (ts us : List Token) → spec.Lexes limit n text ts
        → spec.Lexes limit n text us → ts ≡ us }
{}
