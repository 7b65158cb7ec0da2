//! What is known of bytes that are not in memory.
use std::marker::Model;
use std::sync::Arc;

/// What is known of bytes: all of them, or how many they are.
#[derive(Drop)]
pub(crate) enum Shape {
    Known(Arc<Vec<u8>>),
    Part(Arc<Vec<u8>>, usize, usize),
    Unknown(u64),
}

/// Bytes that a clause speaks of. Those of which only the number is known are taken for zeros.
#[derive(Drop)]
pub(crate) struct Shaped {
    pub(crate) shape: Shape,
}

impl Model for Shaped {
    ghost use Rattle.std.specs.Prelude.{ℕ, List};

    ghost Value = { List ℕ };

    ghost use Rattle.archive.specs.Archives.{shaped};

    ghost view = { λ s. shaped s.shape };
}
