//! The content stream of a request (CMIS 1.1, section 2.1.4).
ghost use Rattle.std.specs.Prelude.{◌≡◌};

use cm_base::copies::Copies;
use cm_base::media::MediaType;
use cm_base::pieces::Pieces;
use cm_base::text::Text;
use std::alloc::{AllocError, Global};

/// A content stream that a request gives: its media type, its file name where one is given, and its bytes. Without a file name it
/// has the name of its object.
#[derive(Drop)]
pub struct GivenStream {
    pub kind: MediaType,
    pub file: Option<Text>,
    pub pieces: Pieces,
}

impl Copies for GivenStream {
    fn copied(&self, alloc: Global) -> Result<GivenStream, AllocError> {
        Ok(GivenStream {
            kind: self.kind.copied(alloc)?,
            file: Copies::copied(&self.file, alloc)?,
            pieces: self.pieces.copied(alloc)?,
        })
    }
}
