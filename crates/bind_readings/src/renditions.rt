//! The arguments of the selector renditions.
ghost use Rattle.std.specs.Prelude.{◌≡◌};
ghost use Rattle.cm_base.specs.Judged.{Meets};
ghost use Rattle.bind_readings.specs.Renditions.{renditions_of};

use crate::filter::listed_filter;
use crate::words::{MAX_ITEMS, SKIP_COUNT};
use bind_parts::asking::Asking;
use bind_parts::parts::place_of;
use cm_base::fail::Fail;
use form_args::number::number;
use rendition_parts::readings::ReadRenditions;
use std::alloc::Global;

/// The question of the selector renditions, or the first cause of its arguments.
#[tactic(auto, using(cm_types::proofs::Exits::fails_bind))]
pub fn renditions_of(alloc: Global, asking: &Asking) -> Result<ReadRenditions, Fail>
    ensures { Meets (λ c. c) result (renditions_of asking.now) }
{
    let pairs = &asking.form.pairs;
    let max_items = number(pairs, MAX_ITEMS, 100)?;
    let skip_count = number(pairs, SKIP_COUNT, 0)?;
    let filter = listed_filter(alloc, pairs)?;
    let place = place_of(alloc, asking)?;
    Ok(ReadRenditions {
        place,
        filter,
        max_items,
        skip_count,
    })
}
