//! The patterns of LIKE, read into pieces.
ghost use Rattle.std.specs.Prelude.{◌≡◌, ◌∷◌, ◌++◌, [], IfOk, fold, false};
ghost use Rattle.ql_bind.specs.Patterns.{next_piece, nothing_read, pieces_of, unescaped_piece};

use crate::bound::{Piece, Pieces};
use cm_base::items::Items;
use cm_base::text::Text;
use std::alloc::{AllocError, Global};

fn unescaped_piece(b: u8) -> Piece
    ensures { result ≡ unescaped_piece b }
{
    match b {
        b'%' => Piece::Run,
        b'_' => Piece::Character,
        _ => Piece::Byte(b),
    }
}

/// What of a pattern is read: its pieces, and whether a backslash came last that stands before the next byte.
#[derive(Drop)]
pub(crate) struct Reading {
    pub(crate) escaped: bool,
    pub(crate) pieces: Pieces,
}

impl Reading {
    fn with(self, piece: Piece) -> Result<Reading, AllocError>
        ensures { IfOk result (λ s. s ≡ record { escaped = false; pieces = self.pieces ++ piece ∷ [] }) }
    {
        let mut pieces = self.pieces;
        pieces.push(piece)?;
        Ok(Reading {
            escaped: false,
            pieces,
        })
    }

    fn next(self, b: u8) -> Result<Reading, AllocError>
        ensures { IfOk result (λ s. s ≡ next_piece self b) }
    {
        if self.escaped {
            return self.with(Piece::Byte(b));
        }
        if b == b'\\' {
            return Ok(Reading {
                escaped: true,
                pieces: self.pieces,
            });
        }
        self.with(unescaped_piece(b))
    }
}

fn read(alloc: Global, text: &[u8]) -> Result<Reading, AllocError>
    ensures { IfOk result (λ s. s ≡ fold next_piece nothing_read text.now) }
{
    let mut reading = Reading {
        escaped: false,
        pieces: Items::new(alloc),
    };
    for b in text {
        reading = reading.next(*b)?;
    }
    Ok(reading)
}

/// The pieces of a pattern.
pub(crate) fn pieces_of(alloc: Global, text: &Text) -> Result<Pieces, AllocError>
    ensures { IfOk result (λ all. all ≡ pieces_of text.now) }
{
    let reading = read(alloc, text.bytes())?;
    Ok(reading.pieces)
}
