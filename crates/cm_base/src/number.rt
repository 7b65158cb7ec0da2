//! Numbers of objects, and moments.
ghost use Rattle.std.specs.Prelude.{◌≡◌};

use crate::copies::Copies;
use crate::items::Items;
use std::alloc::{AllocError, Global};

/// The number of an object or of a rendition, printed in decimal as its id. The root folder is 1.
#[derive(Clone, Copy, Debug, PartialEq, Eq, PartialOrd, Ord)]
pub struct Oid(pub u64);

/// A moment in milliseconds since 1970, UTC.
#[derive(Clone, Copy, Debug, PartialEq, Eq, PartialOrd, Ord)]
pub struct Moment(pub i64);

/// The end of the year 9999: the last moment that has a form of text, in milliseconds since 1970.
pub const LAST_MOMENT_MS: u64 = 253_402_300_799_999;

/// A list of numbers of objects.
pub type Oids = Items<Oid>;

impl Copies for Oid {
    fn copied(&self, _alloc: Global) -> Result<Oid, AllocError> {
        Ok(*self)
    }
}

impl Copies for Moment {
    fn copied(&self, _alloc: Global) -> Result<Moment, AllocError> {
        Ok(*self)
    }
}
