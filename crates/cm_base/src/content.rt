//! Content streams and renditions (CMIS 1.1, sections 2.1.4 and 2.1.10).
ghost use Rattle.std.specs.Prelude.{◌≡◌};

use crate::copies::Copies;
use crate::items::Items;
use crate::media::MediaType;
use crate::number::Oid;
use crate::pieces::Pieces;
use crate::text::Text;
use std::alloc::{AllocError, Global};

/// A content stream: its media type, its file name and its bytes.
#[derive(Drop)]
pub struct Stream {
    pub kind: MediaType,
    pub file: Text,
    pub pieces: Pieces,
}

/// The content of a document, and the number of the step that last changed it.
#[derive(Drop)]
pub struct Content {
    pub of: Oid,
    pub stream: Stream,
    pub step: u64,
}

/// The contents of documents.
pub type ContentList = Items<Content>;

/// A rendition of an object: its own number, its kind, its title and its bytes.
#[derive(Drop)]
pub struct Rendition {
    pub of: Oid,
    pub id: Oid,
    pub kind: Text,
    pub title: Option<Text>,
    pub media: MediaType,
    pub pieces: Pieces,
}

/// A list of renditions.
pub type Renditions = Items<Rendition>;

impl Copies for Stream {
    fn copied(&self, alloc: Global) -> Result<Stream, AllocError> {
        Ok(Stream {
            kind: self.kind.copied(alloc)?,
            file: self.file.copied(alloc)?,
            pieces: self.pieces.copied(alloc)?,
        })
    }
}

impl Copies for Content {
    fn copied(&self, alloc: Global) -> Result<Content, AllocError> {
        Ok(Content {
            of: self.of,
            stream: self.stream.copied(alloc)?,
            step: self.step,
        })
    }
}

impl Copies for Rendition {
    fn copied(&self, alloc: Global) -> Result<Rendition, AllocError> {
        Ok(Rendition {
            of: self.of,
            id: self.id,
            kind: self.kind.copied(alloc)?,
            title: Copies::copied(&self.title, alloc)?,
            media: self.media.copied(alloc)?,
            pieces: self.pieces.copied(alloc)?,
        })
    }
}
