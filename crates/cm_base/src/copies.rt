//! Copies that equal what they are copies of.
ghost use Rattle.std.specs.Prelude.{◌≡◌, IfOk};

use std::alloc::{AllocError, Global};

/// What can be copied into memory of its own.
pub trait Copies {
    /// A value that contracts can't tell from this one.
    fn copied(&self, alloc: Global) -> Result<Self, AllocError>
        ensures { IfOk result (λ c. c ≡ self.now) };
}

impl Copies for bool {
    fn copied(&self, _alloc: Global) -> Result<bool, AllocError> {
        Ok(*self)
    }
}

impl<T: Copies + Drop> Copies for Option<T> {
    fn copied(&self, alloc: Global) -> Result<Option<T>, AllocError> {
        match self {
            Some(value) => Ok(Some(value.copied(alloc)?)),
            None => Ok(None),
        }
    }
}
