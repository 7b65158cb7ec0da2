//! The arguments of versions and parents.
ghost use Rattle.std.specs.Prelude.{◌≡◌};
ghost use Rattle.cm_base.specs.Judged.{Meets};
ghost use Rattle.bind_readings.specs.Lists.{show_parents_of, show_versions_of};

use crate::includes::includes_of;
use crate::words::{INCLUDE_PATH_SEGMENT, INCLUDE_RELATIVE_PATH_SEGMENT};
use bind_parts::asking::Asking;
use bind_parts::parts::place_of;
use call_parts::readings::{ReadParents, ReadVersions};
use cm_base::fail::Fail;
use form_args::choice::flag;
use form_args::filter::property_filter;
use form_args::words::SUCCINCT;
use include_parts::readings::{ShowParents, ShowVersions};
use std::alloc::Global;

/// The question of the selector versions, or the first cause of its arguments. includePathSegment and includeRelativePathSegment are
/// judged, since they are arguments of other lists too, and mean nothing here.
#[tactic(auto, using(cm_types::proofs::Exits::fails_bind))]
pub fn show_versions_of(alloc: Global, asking: &Asking) -> Result<ShowVersions, Fail>
    ensures { Meets (λ c. c) result (show_versions_of asking.now) }
{
    let pairs = &asking.form.pairs;
    let succinct = flag(pairs, SUCCINCT, false)?;
    let includes = includes_of(alloc, pairs)?;
    let filter = property_filter(alloc, pairs)?;
    let _judged = flag(pairs, INCLUDE_PATH_SEGMENT, false)?;
    let _judged_too = flag(pairs, INCLUDE_RELATIVE_PATH_SEGMENT, false)?;
    let place = place_of(alloc, asking)?;
    Ok(ShowVersions {
        versions: ReadVersions {
            place,
            filter,
            succinct,
        },
        includes,
    })
}

/// The question of the selector parents, or the first cause of its arguments. includePathSegment is judged, since it is an argument
/// of other lists too, and means nothing here.
#[tactic(auto, using(cm_types::proofs::Exits::fails_bind))]
pub fn show_parents_of(alloc: Global, asking: &Asking) -> Result<ShowParents, Fail>
    ensures { Meets (λ c. c) result (show_parents_of asking.now) }
{
    let pairs = &asking.form.pairs;
    let succinct = flag(pairs, SUCCINCT, false)?;
    let includes = includes_of(alloc, pairs)?;
    let filter = property_filter(alloc, pairs)?;
    let _judged_path = flag(pairs, INCLUDE_PATH_SEGMENT, false)?;
    let segments = flag(pairs, INCLUDE_RELATIVE_PATH_SEGMENT, false)?;
    let place = place_of(alloc, asking)?;
    Ok(ShowParents {
        parents: ReadParents {
            place,
            filter,
            segments,
            succinct,
        },
        includes,
    })
}
