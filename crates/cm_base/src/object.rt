//! Objects (CMIS 1.1, section 2.1.1).
ghost use Rattle.std.specs.Prelude.{◌≡◌};

use crate::copies::Copies;
use crate::items::Items;
use crate::number::{Moment, Oid};
use crate::text::{Text, Texts};
use crate::value::Values;
use std::alloc::{AllocError, Global};

/// An object as it is kept. A version has no name of its own, since its series has one; a working copy has one.
#[derive(Drop)]
pub struct Object {
    /// Its number.
    pub id: Oid,
    /// The id of its type.
    pub kind: Text,
    /// Its name; none for a version of a document.
    pub name: Option<Text>,
    /// The ids of its secondary types, each once.
    pub secondary: Texts,
    /// The kept values of the properties that a form or a default may give.
    pub values: Values,
    /// Who made it, and when.
    pub created_by: Text,
    pub created_at: Moment,
    /// Who last changed it, and when.
    pub modified_by: Text,
    pub modified_at: Moment,
    /// The number of the step that last changed it, its change token.
    pub token: u64,
    /// The number of its version series, for a document.
    pub series: Option<Oid>,
}

/// A list of objects.
pub type Objects = Items<Object>;

impl Copies for Object {
    fn copied(&self, alloc: Global) -> Result<Object, AllocError> {
        Ok(Object {
            id: self.id,
            kind: self.kind.copied(alloc)?,
            name: Copies::copied(&self.name, alloc)?,
            secondary: self.secondary.copied(alloc)?,
            values: self.values.copied(alloc)?,
            created_by: self.created_by.copied(alloc)?,
            created_at: self.created_at,
            modified_by: self.modified_by.copied(alloc)?,
            modified_at: self.modified_at,
            token: self.token,
            series: self.series,
        })
    }
}
