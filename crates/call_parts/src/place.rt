//! The object that a call addresses.
ghost use Rattle.std.specs.Prelude.{◌≡◌};

use cm_base::copies::Copies;
use cm_base::text::{Text, Texts};
use std::alloc::{AllocError, Global};

/// An object by its id, or by the names on its path from the root (CMIS 1.1, section 5.3.4).
#[derive(Drop)]
pub enum Place {
    Id(Text),
    Path(Texts),
}

impl Copies for Place {
    fn copied(&self, alloc: Global) -> Result<Place, AllocError> {
        match self {
            Place::Id(id) => Ok(Place::Id(id.copied(alloc)?)),
            Place::Path(names) => Ok(Place::Path(names.copied(alloc)?)),
        }
    }
}
