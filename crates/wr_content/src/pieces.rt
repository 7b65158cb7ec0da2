//! Bytes behind others. Small pieces are put together: each piece is large or at least twice as long as the next, so that a body of many
//! small parts has few pieces, and what is copied again stands in a piece that grew by half. A large piece is never copied.
ghost use Rattle.std.specs.Prelude.{◌≡◌, ◌+◌, ◌++◌, ◌<◌, ◌≤◌, ◌^◌, IfOk, IfSome, IsTrue, length, take, drop};
ghost use Rattle.cm_base.specs.Whole.{whole};

use cm_base::copies::Copies;
use cm_base::piece::{Piece, Place};
use cm_base::pieces::Pieces;
use std::alloc::{AllocError, Global};
use std::sync::Arc;

/// From so many bytes on a piece is never copied.
const LARGE_PIECE: u64 = 1_048_576;

// Whether its bytes are in memory.
fn is_held(piece: &Piece) -> bool {
    match piece.place() {
        Place::Held(_) => true,
        Place::Kept(_) => false,
    }
}

// How many of the pieces stay as they are, from the first, where so many bytes come behind them. What stands in an archive stays there.
fn staying(pieces: &[Piece], bytes: u64) -> usize
    ensures { result ≤ length pieces.now }
{
    let count = pieces.len();
    let mut behind = bytes;
    for done in 0..count {
        let piece = &pieces[count - 1 - done];
        let size = piece.len();
        if !is_held(piece) || LARGE_PIECE <= size || behind <= size / 2 {
            return count - done;
        }
        behind = behind.saturating_add(size);
    }
    0
}

// How many bytes the pieces have.
fn size_of(pieces: &[Piece]) -> u64 {
    let mut size: u64 = 0;
    for piece in pieces {
        size = size.saturating_add(piece.len());
    }
    size
}

// Adds the bytes of a piece, where they are in memory.
fn push(all: &mut Vec<u8>, piece: &Piece) -> Result<bool, AllocError>
    ensures { IfOk result (λ held. IsTrue held → all.new.items ≡ all.old.items ++ piece.now) }
{
    match piece.place() {
        Place::Held(bytes) => {
            all.extend_from_slice(bytes.as_slice())?;
            Ok(true)
        }
        Place::Kept(_) => Ok(false),
    }
}

// Adds the bytes of the pieces, where all of them are in memory.
fn push_all(all: &mut Vec<u8>, pieces: &[Piece]) -> Result<bool, AllocError>
    ensures { IfOk result (λ held. IsTrue held → all.new.items ≡ all.old.items ++ whole pieces.now) }
{
    for piece in pieces {
        let held = push(all, piece)?;
        if !held {
            return Ok(false);
        }
    }
    Ok(true)
}

// The bytes of the pieces, and then those of more, as one piece of its own, where all of them are in memory.
fn as_one(alloc: Global, pieces: &[Piece], more: &[Piece]) -> Result<Option<Pieces>, AllocError>
    ensures { IfOk result (λ one. IfSome one (λ p. p ≡ whole pieces.now ++ whole more.now)) }
{
    let mut all = Vec::new(alloc);
    let before = push_all(&mut all, pieces)?;
    if !before {
        return Ok(None);
    }
    let behind = push_all(&mut all, more)?;
    if !behind {
        return Ok(None);
    }
    let bytes = Arc::new(alloc, all)?;
    Ok(Some(Pieces::of(bytes)))
}

fn with_piece(alloc: Global, pieces: &Pieces, piece: &Piece) -> Result<Pieces, AllocError>
    requires fits { length pieces.now + length piece.now < 2 ^ 64 }
    ensures { IfOk result (λ p. p ≡ pieces.now ++ piece.now) }
{
    let one = Pieces::one(piece.copied(alloc)?);
    pieces.append(alloc, &one)
}

// The pieces, which stay shared.
fn shared(alloc: Global, pieces: &[Piece]) -> Result<Pieces, AllocError>
    requires fits { length (whole pieces.now) < 2 ^ 64 }
    ensures { IfOk result (λ p. p ≡ whole pieces.now) }
{
    let mut all = Pieces::empty(alloc);
    for piece in pieces {
        all = with_piece(alloc, &all, piece)?;
    }
    Ok(all)
}

// The first pieces, so many, and then the bytes of one that was made of the others and more.
fn before(
    alloc: Global,
    pieces: &[Piece],
    count: usize,
    behind: &Pieces,
) -> Result<Pieces, AllocError>
    requires among { count ≤ length pieces.now }
    requires fits { length (whole (take count pieces.now)) + length behind.now < 2 ^ 64 }
    ensures { IfOk result (λ p. p ≡ whole (take count pieces.now) ++ behind.now) }
{
    let front = shared(alloc, &pieces[..count])?;
    front.append(alloc, behind)
}

// The bytes of a body and then more, of which the first pieces, so many, stay shared.
fn joined(alloc: Global, old: &Pieces, count: usize, more: &Pieces) -> Result<Pieces, AllocError>
    requires fits { length old.now + length more.now < 2 ^ 64 }
    ensures { IfOk result (λ p. p ≡ old.now ++ more.now) }
{
    let pieces = old.list();
    if count < pieces.len() {
        let one = as_one(alloc, &pieces[count..], more.list())?;
        match one {
            Some(behind) => before(alloc, pieces, count, &behind),
            None => old.append(alloc, more),
        }
    } else {
        old.append(alloc, more)
    }
}

/// The bytes of a body and then more. Large pieces and those that stand in an archive stay shared.
pub(crate) fn appended(alloc: Global, old: &Pieces, more: &Pieces) -> Result<Pieces, AllocError>
    requires fits { length old.now + length more.now < 2 ^ 64 }
    ensures { IfOk result (λ p. p ≡ old.now ++ more.now) }
{
    let count = staying(old.list(), size_of(more.list()));
    joined(alloc, old, count, more)
}
