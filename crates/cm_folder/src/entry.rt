//! What is kept of a child in a folder.
ghost use Rattle.std.specs.Prelude.{◌≡◌};

use cm_base::copies::Copies;
use cm_base::number::Oid;
use cm_base::text::Text;
use std::alloc::{AllocError, Global};

/// A child in a folder: a folder or an item by its number, documents by that of their series.
#[derive(Drop)]
pub struct FilingEntry {
    pub folder: Oid,
    pub child: Oid,
    /// Whether the child is a folder.
    pub is_folder: bool,
    /// The child's name, which is the same in each of its folders.
    pub name: Text,
}

impl Copies for FilingEntry {
    fn copied(&self, alloc: Global) -> Result<FilingEntry, AllocError> {
        Ok(FilingEntry {
            folder: self.folder,
            child: self.child,
            is_folder: self.is_folder,
            name: self.name.copied(alloc)?,
        })
    }
}
