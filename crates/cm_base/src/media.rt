//! Media types of content.
ghost use Rattle.std.specs.Prelude.{◌≡◌, ℕ, ◌≤◌, List, length, IfOk, Some, None, Option, if◌then◌else◌, nat_le};

use crate::copies::Copies;
use crate::text::Text;
use std::alloc::{AllocError, Global};
use std::marker::Model;

/// The most bytes of a media type.
pub const LONGEST_MEDIA_TYPE: usize = 255;

/// A media type of at most 255 bytes, seen as its bytes. The empty one stands for no Content-Type.
#[derive(Drop)]
pub struct MediaType {
    text: Text,
}

impl Model for MediaType {
    ghost use Rattle.std.specs.Prelude.{ℕ, ◌≤◌, List, length};

    ghost Value = { List ℕ };

    ghost view = { λ m. m.text };

    ghost invariant = { λ m. length m.text ≤ 255 };
}

impl MediaType {
    /// The media type with these bytes; none exactly where they are more than 255.
    pub fn from_text(text: Text) -> Option<MediaType>
        ensures { result ≡ (if nat_le (length text) 255 then Some text else None) }
    {
        if text.len() <= LONGEST_MEDIA_TYPE {
            Some(MediaType { text })
        } else {
            None
        }
    }

    /// The characters.
    pub fn as_str(&self) -> &str
        ensures text { result.now ≡ self.now }
        ensures short { length self.now ≤ 255 }
    {
        self.text.as_str()
    }
}

impl Copies for MediaType {
    fn copied(&self, alloc: Global) -> Result<MediaType, AllocError> {
        let text = self.text.copied(alloc)?;
        Ok(MediaType { text })
    }
}
