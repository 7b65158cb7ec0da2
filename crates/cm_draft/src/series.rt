//! The changes of version series.
ghost use Rattle.std.specs.Prelude.{◌≡◌, ◌<◌, IfOk, All, is_some, true};
ghost use Rattle.cmis_spec.specs.Repository.{series_at};
ghost use Rattle.cmis_spec.specs.Changes.{with_series, edited_series};

use crate::draft::Draft;
use crate::made::{given_up, series_of};
use crate::told::with_all_series;
use cm_base::series::Series;
use std::alloc::{AllocError, Global};

impl Draft {
    /// A series more, whose number is above those of all others.
    pub fn with_series(self, alloc: Global, series: Series) -> Result<Draft, AllocError>
        requires above { All (λ s. s.id.0 < series.id.0) self.series }
        ensures { IfOk result (λ d. d ≡ with_series self series) }
    {
        let number = series.id;
        match series_of(self.parts()).with_last(alloc, series) {
            Ok(all) => with_all_series(alloc, self, all, number),
            Err(short) => Err(given_up(self, short)),
        }
    }

    /// The series in place of the one that has its number.
    pub fn edited_series(self, alloc: Global, series: Series) -> Result<Draft, AllocError>
        requires there { is_some (series_at self series.id) ≡ true }
        ensures { IfOk result (λ d. d ≡ edited_series self series) }
    {
        let number = series.id;
        match series_of(self.parts()).with_member(alloc, series) {
            Ok(all) => with_all_series(alloc, self, all, number),
            Err(short) => Err(given_up(self, short)),
        }
    }
}
