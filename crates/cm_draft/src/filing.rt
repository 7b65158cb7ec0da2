//! The changes of the filing.
ghost use Rattle.std.specs.Prelude.{◌≡◌, IfOk};
ghost use Rattle.cmis_spec.specs.Changes.{with_pair, without_pair, moved};

use crate::draft::Draft;
use crate::made::{filing_of, given_up, put_filing};
use crate::told::filed;
use cm_base::number::Oid;
use std::alloc::{AllocError, Global};

impl Draft {
    /// A child more in a folder.
    pub fn with_pair(self, alloc: Global, folder: Oid, child: Oid) -> Result<Draft, AllocError>
        ensures { IfOk result (λ d. d ≡ with_pair self folder child) }
    {
        match filed(alloc, self.parts(), folder, child) {
            Ok(filing) => Ok(put_filing(self, filing)),
            Err(short) => Err(given_up(self, short)),
        }
    }

    /// The child no longer in the folder.
    pub fn without_pair(self, alloc: Global, folder: Oid, child: Oid) -> Result<Draft, AllocError>
        ensures { IfOk result (λ d. d ≡ without_pair self folder child) }
    {
        match filing_of(self.parts()).taken_out(alloc, folder, child) {
            Ok(filing) => Ok(put_filing(self, filing)),
            Err(short) => Err(given_up(self, short)),
        }
    }

    /// The child of the source in the target.
    pub fn moved(
        self,
        alloc: Global,
        child: Oid,
        source: Oid,
        target: Oid,
    ) -> Result<Draft, AllocError>
        ensures { IfOk result (λ d. d ≡ moved self child source target) }
    {
        match filing_of(self.parts()).put_in(alloc, child, source, target) {
            Ok(filing) => Ok(put_filing(self, filing)),
            Err(short) => Err(given_up(self, short)),
        }
    }
}
