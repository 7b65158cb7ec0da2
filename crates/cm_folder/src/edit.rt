//! What is made of the entries of one child.
ghost use Rattle.std.specs.Prelude.{◌≡◌, IfOk};
ghost use Rattle.cm_folder.specs.Filings.{edit_of};

use crate::entry::FilingEntry;
use cm_base::copies::Copies;
use cm_base::number::Oid;
use cm_base::text::Text;
use std::alloc::{AllocError, Global};

/// A change of a child's entries.
#[derive(Drop)]
pub enum Edit {
    /// Its entry in this folder goes.
    TakeOut(Oid),
    /// Its entry in the first folder stands in the second one.
    Place(Oid, Oid),
    /// Each of its entries tells whether it is a folder, and gets the name.
    Tell(bool, Text),
}

impl Edit {
    /// What becomes of an entry of the child; none where it goes.
    pub fn applied(
        &self,
        alloc: Global,
        entry: &FilingEntry,
    ) -> Result<Option<FilingEntry>, AllocError>
        ensures { IfOk result (λ e. e ≡ edit_of self.now entry.now) }
    {
        let mut new = entry.copied(alloc)?;
        match self {
            Edit::TakeOut(folder) => {
                if new.folder.0 == folder.0 {
                    return Ok(None);
                }
            }
            Edit::Place(source, target) => {
                if new.folder.0 == source.0 {
                    new.folder = *target;
                }
            }
            Edit::Tell(is_folder, name) => {
                new.is_folder = *is_folder;
                new.name = name.copied(alloc)?;
            }
        }
        Ok(Some(new))
    }
}
