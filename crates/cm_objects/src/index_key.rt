//! What objects are looked up by.
ghost use Rattle.std.specs.Prelude.{◌≡◌};
ghost use Rattle.cm_objects.specs.IndexKeyFacts.{index_exact};

use cm_base::copies::Copies;
use cm_base::number::Oid;
use cm_base::text::Text;
use cm_map::key::Key;
use std::alloc::{AllocError, Global};

/// A key of an index. Keys are ordered by their kind first, then by their parts, texts by bytes.
#[derive(PartialEq, Eq, PartialOrd, Ord, Drop)]
pub enum IndexKey {
    /// The id of a type: the objects of it.
    Kind(Text),
    /// An object: those that name it as an end, as relationships do (CMIS 1.1, section 2.1.6).
    End(Oid),
}

impl Key for IndexKey {
    ghost exact = { index_exact };
}

impl Copies for IndexKey {
    fn copied(&self, alloc: Global) -> Result<IndexKey, AllocError> {
        match self {
            IndexKey::Kind(kind) => Ok(IndexKey::Kind(kind.copied(alloc)?)),
            IndexKey::End(end) => Ok(IndexKey::End(*end)),
        }
    }
}
