//! The changes of access control lists.
ghost use Rattle.std.specs.Prelude.{◌≡◌, ◌<◌, IfOk, All, is_some, true, find};
ghost use Rattle.cmis_spec.specs.Repository.{same};
ghost use Rattle.cmis_spec.specs.Changes.{with_list, with_aces};

use crate::draft::Draft;
use crate::made::{access_of, given_up, put_access};
use cm_base::access::AccessList;
use std::alloc::{AllocError, Global};

impl Draft {
    /// A list more, whose number is above those of all others.
    pub fn with_list(self, alloc: Global, list: AccessList) -> Result<Draft, AllocError>
        requires above { All (λ l. l.at.0 < list.at.0) self.access }
        ensures { IfOk result (λ d. d ≡ with_list self list) }
    {
        match access_of(self.parts()).with_last(alloc, list) {
            Ok(access) => Ok(put_access(self, access)),
            Err(short) => Err(given_up(self, short)),
        }
    }

    /// The list in place of the one that has its number.
    pub fn with_aces(self, alloc: Global, list: AccessList) -> Result<Draft, AllocError>
        requires there { is_some (find (λ l. same l.at list.at) self.access) ≡ true }
        ensures { IfOk result (λ d. d ≡ with_aces self list) }
    {
        match access_of(self.parts()).with_member(alloc, list) {
            Ok(access) => Ok(put_access(self, access)),
            Err(short) => Err(given_up(self, short)),
        }
    }
}
