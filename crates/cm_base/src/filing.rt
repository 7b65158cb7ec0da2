//! What is filed in folders, and which policies are applied (CMIS 1.1, sections 2.1.5 and 2.1.7).
ghost use Rattle.std.specs.Prelude.{◌≡◌};

use crate::copies::Copies;
use crate::items::Items;
use crate::number::Oid;
use std::alloc::{AllocError, Global};

/// A folder and a child of it: a folder or an item by its number, documents by that of their series.
#[derive(Clone, Copy, Debug, PartialEq, Eq)]
pub struct Filed {
    pub folder: Oid,
    pub child: Oid,
}

/// The filing pairs in the order in which they were made.
pub type FiledPairs = Items<Filed>;

/// A policy that is applied to an object.
#[derive(Clone, Copy, Debug, PartialEq, Eq)]
pub struct Applied {
    pub policy: Oid,
    pub object: Oid,
}

/// The applied policies.
pub type AppliedPairs = Items<Applied>;

impl Copies for Filed {
    fn copied(&self, _alloc: Global) -> Result<Filed, AllocError> {
        Ok(*self)
    }
}

impl Copies for Applied {
    fn copied(&self, _alloc: Global) -> Result<Applied, AllocError> {
        Ok(*self)
    }
}
