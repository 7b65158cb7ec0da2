//! Stores of rows.
ghost use Rattle.std.specs.Prelude.{◌≡◌, ◌+◌, IfOk};
ghost use Rattle.cmis_spec.specs.Repository.{Repository};
ghost use Rattle.cmis_spec.specs.Well.{IsWellFormed};
ghost use Rattle.row_store.specs.Rows.{filed_in, has_types, of_types, row_kept};

use crate::search::Search;
use cm_base::number::{Oid, Oids};
use cm_base::steps::Steps;
use cm_base::text::Texts;
use ql_eval::row::Row;
use std::alloc::{AllocError, Global};
use std::sync::ledger::Ledger;

/// A repository as queries read it. What an object is they learn by `row` alone, and each call of it ticks one step.
pub trait RowStore {
    /// The repository that it means.
    ghost means: { Self → Repository };

    /// The repository is well formed.
    fn lawful(&self)
        ensures { IsWellFormed (means self.now) };

    /// The objects of these types or with one of them as a secondary type, by number; versions and working copies are among them.
    fn of_types(&self, alloc: Global, kinds: &Texts) -> Result<Oids, AllocError>
        ensures { IfOk result (λ all. all ≡ of_types (means self.now) kinds.now) };

    /// Whether an object is one of them. Takes no memory.
    fn has_types(&self, kinds: &Texts, x: Oid) -> bool
        ensures { result ≡ has_types (means self.now) kinds.now x };

    /// The folders and items that are filed in the folder, and all versions of the series that are, by number.
    fn filed_in(&self, alloc: Global, folder: Oid) -> Result<Oids, AllocError>
        ensures { IfOk result (λ all. all ≡ filed_in (means self.now) folder) };

    /// The row of an object; none where it isn't there, the user doesn't read it, it is a working copy, or an older version while
    /// `versions` is false, and none where the query doesn't keep it. Ticks one step.
    fn row<L: Ledger>(
        &self,
        alloc: Global,
        search: &Search<'_>,
        x: Oid,
        steps: &mut Steps<L>,
    ) -> Result<Option<Row>, AllocError>
        ensures row { IfOk result (λ row. row ≡ row_kept (means self.now) search.now x) }
        ensures ticked { steps.new ≡ steps.old + 1 };
}
