//! Bytes in shared pieces: a copy shares them, and nothing depends on how they are cut, nor on where they are.
ghost use Rattle.std.specs.Prelude.{◌≡◌, ◌+◌, ◌*◌, ◌^◌, ◌<◌, ◌≤◌, ◌++◌, [], ◌∷◌, length, slice_range, IfOk, OnOk};
ghost use Rattle.std.specs.Arc.{arc_value};
ghost use Rattle.cm_base.specs.Whole.{whole};
ghost use Rattle.cm_base.specs.Parted.{parted};

use crate::copies::Copies;
use crate::piece::Piece;
use bytes::Bytes;
use std::alloc::{AllocError, Global};
use std::marker::Model;
use std::slice;
use std::sync::Arc;

// One piece, or some of them.
#[derive(Drop)]
enum Parts {
    One(Piece),
    Several(Vec<Piece>),
}

/// A stream's bytes, in pieces.
pub struct Pieces {
    parts: Parts,
    len: u64,
}

impl Model for Pieces {
    ghost use Rattle.std.specs.Prelude.{ℕ, List, ◌≡◌, length};

    ghost Value = { List ℕ };

    ghost use Rattle.cm_base.specs.Parted.{parted};

    ghost view = { λ p. parted p.parts };

    ghost invariant = { λ p. p.len ≡ length (parted p.parts) };
}

impl Drop for Pieces {
    fn drop(self) {
        let Pieces { parts, len: _ } = self;
        let _ = parts;
    }
}

// Adds a piece to a list of them.
fn add(list: &mut Vec<Piece>, alloc: Global, piece: &Piece) -> Result<(), AllocError>
    ensures { OnOk result (whole list.new.items ≡ whole list.old.items ++ piece.now) }
{
    list.push(piece.copied(alloc)?)?;
    Ok(())
}

fn add_all(list: &mut Vec<Piece>, alloc: Global, pieces: &[Piece]) -> Result<(), AllocError>
    ensures { OnOk result (whole list.new.items ≡ whole list.old.items ++ whole pieces.now) }
{
    for piece in pieces {
        add(list, alloc, piece)?;
    }
    Ok(())
}

impl Pieces {
    /// No bytes, which takes no memory.
    pub fn empty(alloc: Global) -> Pieces
        ensures { result ≡ [] }
    {
        Pieces {
            parts: Parts::Several(Vec::new(alloc)),
            len: 0,
        }
    }

    /// One piece, which takes no memory.
    pub fn one(piece: Piece) -> Pieces
        ensures { result ≡ piece }
    {
        let len = piece.len();
        Pieces {
            parts: Parts::One(piece),
            len,
        }
    }

    /// These bytes, which stay shared with whoever else holds them. It takes no memory.
    pub fn of(bytes: Arc<Vec<u8>>) -> Pieces
        ensures { result ≡ (arc_value bytes).items }
    {
        Pieces::one(Piece::held(bytes))
    }

    /// A part of a body, copied.
    pub fn of_part(
        alloc: Global,
        body: &Bytes,
        from: usize,
        to: usize,
    ) -> Result<Pieces, AllocError>
        requires ordered { from ≤ to }
        requires within { to ≤ length body.now }
        ensures { IfOk result (λ p. p ≡ slice_range body.now from to) }
    {
        let part = Vec::from_slice(alloc, &body.as_slice()[from..to])?;
        let part = Arc::new(alloc, part)?;
        Ok(Pieces::of(part))
    }

    /// The number of bytes.
    pub fn len(&self) -> u64
        ensures { result ≡ length self.now }
    {
        self.len
    }

    /// These bytes and then more.
    pub fn append(&self, alloc: Global, more: &Pieces) -> Result<Pieces, AllocError>
        requires { length self.now + length more.now < 2 ^ 64 }
        ensures { IfOk result (λ p. p ≡ self.now ++ more.now) }
    {
        let len = self.len() + more.len();
        let mut list = Vec::new(alloc);
        add_all(&mut list, alloc, self.list())?;
        add_all(&mut list, alloc, more.list())?;
        Ok(Pieces {
            parts: Parts::Several(list),
            len,
        })
    }

    /// The pieces, to be written one after another.
    pub fn list(&self) -> &[Piece]
        ensures { whole result.now ≡ self.now }
    {
        listed(&self.parts)
    }
}

fn listed(parts: &Parts) -> &[Piece]
    ensures { whole result.now ≡ parted parts.now }
{
    match parts {
        Parts::One(piece) => slice::from_ref(piece),
        Parts::Several(list) => list,
    }
}

fn copied(parts: &Parts, alloc: Global) -> Result<Parts, AllocError>
    ensures { IfOk result (λ p. parted p ≡ parted parts.now) }
{
    match parts {
        Parts::One(piece) => {
            let piece = piece.copied(alloc)?;
            Ok(Parts::One(piece))
        }
        Parts::Several(pieces) => {
            let mut list = Vec::new(alloc);
            add_all(&mut list, alloc, pieces)?;
            Ok(Parts::Several(list))
        }
    }
}

impl Copies for Pieces {
    fn copied(&self, alloc: Global) -> Result<Pieces, AllocError> {
        let parts = copied(&self.parts, alloc)?;
        Ok(Pieces {
            parts,
            len: self.len,
        })
    }
}
