//! Events of the change log (CMIS 1.1, section 2.1.15).
ghost use Rattle.std.specs.Prelude.{◌≡◌};

use crate::copies::Copies;
use crate::items::Items;
use crate::number::{Moment, Oid};
use std::alloc::{AllocError, Global};

/// What happened to the object.
#[derive(Clone, Copy, Debug, PartialEq, Eq)]
pub enum ChangeKind {
    Created,
    Updated,
    Deleted,
    Security,
}

/// One mark a user in the order of the list of users, then one for `anonymous`.
pub type Marks = Items<bool>;

/// An event. The marks of a deletion say who read the object just before.
#[derive(Drop)]
pub struct Change {
    pub kind: ChangeKind,
    pub object: Oid,
    pub moment: Moment,
    pub readers: Marks,
}

/// Events in order.
pub type Changes = Items<Change>;

impl Copies for Change {
    fn copied(&self, alloc: Global) -> Result<Change, AllocError> {
        Ok(Change {
            kind: self.kind,
            object: self.object,
            moment: self.moment,
            readers: self.readers.copied(alloc)?,
        })
    }
}
