//! Tokens.
ghost use Rattle.std.specs.Prelude.{◌≡◌};

use crate::word::Word;
use std::marker::Model;

/// A part of a query's text, seen as its bytes.
#[derive(Drop)]
pub struct Piece<'a> {
    text: &'a str,
}

impl<'a> Model for Piece<'a> {
    ghost use Rattle.std.specs.Prelude.{List, ℕ};

    ghost Value = { List ℕ };

    ghost view = { λ p. p.text.now };
}

impl<'a> Piece<'a> {
    /// The part.
    pub fn new(text: &'a str) -> Piece<'a>
        ensures { result ≡ text.now }
    {
        Piece { text }
    }

    /// Its characters.
    pub fn text(&self) -> &'a str
        ensures { result.now ≡ self.now }
    {
        self.text
    }
}

/// What a token is.
#[derive(Drop)]
pub enum Kind<'a> {
    /// A keyword or a sign.
    Word(Word),
    /// A name that is no keyword.
    Name(Piece<'a>),
    /// What stands between two quotes, with its backslashes.
    Quoted(Piece<'a>),
    /// Digits, with a minus before them or none.
    Number(Piece<'a>),
    /// Digits, a point and digits, with a minus before them or none.
    Decimal(Piece<'a>),
    /// No token can stand here.
    Wrong,
}

/// A token of a text.
#[derive(Drop)]
pub struct Token<'a> {
    pub kind: Kind<'a>,
    /// The offset of its first byte, from 0.
    pub at: usize,
}
