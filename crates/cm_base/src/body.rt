//! The body of a reply.
ghost use Rattle.std.specs.Prelude.{◌≡◌, length};

use crate::pieces::Pieces;
use bytes::Bytes;
use std::marker::Model;

/// Where the bytes of a body are.
#[derive(Drop)]
pub enum BodyParts {
    /// In memory, as one.
    Whole(Bytes),
    /// In the pieces of a stream.
    Stream(Pieces),
}

/// The body of a reply, seen as its bytes.
pub struct Body {
    parts: BodyParts,
}

impl Model for Body {
    ghost use Rattle.std.specs.Prelude.{ℕ, List};

    ghost Value = { List ℕ };

    ghost use Rattle.cm_base.specs.Bodies.{body_bytes};

    ghost view = { λ b. body_bytes b.parts };
}

impl Drop for Body {
    fn drop(self) {
        let Body { parts } = self;
        let _ = parts;
    }
}

impl Body {
    ghost use Rattle.cm_base.specs.Bodies.{body_bytes};

    /// These bytes. It takes no memory.
    pub fn of(bytes: Bytes) -> Body
        ensures { result ≡ bytes }
    {
        Body {
            parts: BodyParts::Whole(bytes),
        }
    }

    /// The bytes of a stream. It takes no memory.
    pub fn stream(pieces: Pieces) -> Body
        ensures { result ≡ pieces }
    {
        Body {
            parts: BodyParts::Stream(pieces),
        }
    }

    /// The number of bytes.
    pub fn len(&self) -> u64
        ensures { result ≡ length self.now }
    {
        match &self.parts {
            BodyParts::Whole(bytes) => bytes.len() as u64,
            BodyParts::Stream(pieces) => pieces.len(),
        }
    }

    /// Where they are.
    pub fn parts(&self) -> &BodyParts
        ensures { body_bytes result.now ≡ self.now }
    {
        &self.parts
    }
}
