//! Access control lists (CMIS 1.1, section 2.1.12).
ghost use Rattle.std.specs.Prelude.{◌≡◌};

use crate::copies::Copies;
use crate::items::Items;
use crate::number::Oid;
use crate::text::Text;
use std::alloc::{AllocError, Global};

/// What a caller may do at an object: nothing, cmis:read, cmis:write, cmis:all. Each includes those before it.
#[derive(Clone, Copy, Debug, PartialEq, Eq, PartialOrd, Ord)]
pub enum Level {
    None,
    Read,
    Write,
    All,
}

/// An access control entry: a principal and one permission.
#[derive(Drop)]
pub struct Ace {
    pub principal: Text,
    pub level: Level,
}

/// An access control list.
pub type Aces = Items<Ace>;

/// The list of an object that is no document, or of a version series for all its documents.
#[derive(Drop)]
pub struct AccessList {
    pub at: Oid,
    pub aces: Aces,
}

/// The lists of all objects and series, in the order of their numbers.
pub type AccessLists = Items<AccessList>;

impl Copies for Ace {
    fn copied(&self, alloc: Global) -> Result<Ace, AllocError> {
        Ok(Ace {
            principal: self.principal.copied(alloc)?,
            level: self.level,
        })
    }
}

impl Copies for AccessList {
    fn copied(&self, alloc: Global) -> Result<AccessList, AllocError> {
        Ok(AccessList {
            at: self.at,
            aces: self.aces.copied(alloc)?,
        })
    }
}
