//! A piece of a stream: bytes in memory, or bytes that stand in an archive.
ghost use Rattle.std.specs.Prelude.{◌≡◌, length};
ghost use Rattle.std.specs.Arc.{arc_value};

use crate::copies::Copies;
use archive::Extent;
use std::alloc::{AllocError, Global};
use std::marker::Model;
use std::sync::Arc;

/// Where the bytes of a piece are.
#[derive(Drop)]
pub enum Place {
    /// In memory, shared with whoever else holds them.
    Held(Arc<Vec<u8>>),
    /// In an archive, and not in memory.
    Kept(Arc<Extent>),
}

/// A piece of a stream, seen as its bytes. Nothing depends on where they are.
#[derive(Drop)]
pub struct Piece {
    place: Place,
}

impl Model for Piece {
    ghost use Rattle.std.specs.Prelude.{ℕ, List};

    ghost Value = { List ℕ };

    ghost use Rattle.cm_base.specs.Placed.{placed};

    ghost view = { λ p. placed p.place };
}

impl Piece {
    ghost use Rattle.cm_base.specs.Placed.{placed};

    /// These bytes, in memory.
    pub fn held(bytes: Arc<Vec<u8>>) -> Piece
        ensures { result ≡ (arc_value bytes).items }
    {
        Piece {
            place: Place::Held(bytes),
        }
    }

    /// These bytes, in an archive.
    pub fn kept(extent: Arc<Extent>) -> Piece
        ensures { result ≡ arc_value extent }
    {
        Piece {
            place: Place::Kept(extent),
        }
    }

    /// The number of bytes.
    pub fn len(&self) -> u64
        ensures { result ≡ length self.now }
    {
        match &self.place {
            Place::Held(bytes) => bytes.len() as u64,
            Place::Kept(extent) => extent.len(),
        }
    }

    /// Where they are.
    pub fn place(&self) -> &Place
        ensures { placed result.now ≡ self.now }
    {
        &self.place
    }
}

impl Copies for Piece {
    fn copied(&self, _alloc: Global) -> Result<Piece, AllocError> {
        match &self.place {
            Place::Held(bytes) => {
                let bytes = Arc::try_clone(bytes)?;
                Ok(Piece::held(bytes))
            }
            Place::Kept(extent) => {
                let extent = Arc::try_clone(extent)?;
                Ok(Piece::kept(extent))
            }
        }
    }
}
