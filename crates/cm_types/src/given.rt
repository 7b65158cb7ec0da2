//! Properties as a request gives them.
ghost use Rattle.std.specs.Prelude.{◌≡◌};

use cm_base::copies::Copies;
use cm_base::items::Items;
use cm_base::text::{Text, Texts};
use std::alloc::{AllocError, Global};

/// A property that a request gives: one text, several (perhaps one or none), or none at all, which unsets it.
#[derive(Drop)]
pub struct Given {
    pub id: Text,
    pub texts: Texts,
    pub several: bool,
}

/// The given properties in their order, each id once.
pub type Givens = Items<Given>;

/// A call that gives properties; of an update, whether the object is a private working copy.
#[derive(Clone, Copy, Debug, PartialEq, Eq)]
pub enum PropertyCall {
    Create,
    Update(bool),
    CheckIn,
}

impl Copies for Given {
    fn copied(&self, alloc: Global) -> Result<Given, AllocError> {
        Ok(Given {
            id: self.id.copied(alloc)?,
            texts: self.texts.copied(alloc)?,
            several: self.several,
        })
    }
}
