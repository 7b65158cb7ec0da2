//! The arguments of children, and of an object without a selector.
ghost use Rattle.std.specs.Prelude.{◌≡◌};
ghost use Rattle.cm_base.specs.Judged.{Meets};
ghost use Rattle.bind_readings.specs.Children.{show_children_of, show_default_of};

use crate::includes::{includes_of, version_of};
use crate::order::order_of;
use crate::words::{INCLUDE_PATH_SEGMENT, INCLUDE_RELATIVE_PATH_SEGMENT, MAX_ITEMS, SKIP_COUNT};
use bind_parts::asking::Asking;
use bind_parts::parts::{place_of, text_of};
use call_parts::readings::{ReadChildren, STREAM_ID};
use cm_base::fail::Fail;
use form_args::choice::flag;
use form_args::filter::property_filter;
use form_args::number::number;
use form_args::words::SUCCINCT;
use include_parts::readings::{ShowChildren, ShowDefault};
use std::alloc::Global;

/// The question of the selector children, or the first cause of its arguments. includeRelativePathSegment is judged, since it is an
/// argument of other lists too, and means nothing here.
#[tactic(auto, using(cm_types::proofs::Exits::fails_bind))]
pub fn show_children_of(alloc: Global, asking: &Asking) -> Result<ShowChildren, Fail>
    ensures { Meets (λ c. c) result (show_children_of asking.now) }
{
    let pairs = &asking.form.pairs;
    let succinct = flag(pairs, SUCCINCT, false)?;
    let includes = includes_of(alloc, pairs)?;
    let filter = property_filter(alloc, pairs)?;
    let max_items = number(pairs, MAX_ITEMS, 100)?;
    let skip_count = number(pairs, SKIP_COUNT, 0)?;
    let order = order_of(alloc, pairs)?;
    let segments = flag(pairs, INCLUDE_PATH_SEGMENT, false)?;
    let _judged = flag(pairs, INCLUDE_RELATIVE_PATH_SEGMENT, false)?;
    let place = place_of(alloc, asking)?;
    Ok(ShowChildren {
        children: ReadChildren {
            place,
            filter,
            max_items,
            skip_count,
            succinct,
        },
        order,
        segments,
        includes,
    })
}

/// The question of an object without a selector, or the first cause of its arguments: those of children, and then those of object
/// and content that are none of children. What is shown so has one version alone, so returnVersion is judged and means nothing.
#[tactic(auto, using(cm_types::proofs::Exits::fails_bind))]
pub fn show_default_of(alloc: Global, asking: &Asking) -> Result<ShowDefault, Fail>
    ensures { Meets (λ c. c) result (show_default_of asking.now) }
{
    let pairs = &asking.form.pairs;
    let children = show_children_of(alloc, asking)?;
    let _judged = version_of(pairs)?;
    let stream = text_of(alloc, pairs, STREAM_ID)?;
    Ok(ShowDefault { children, stream })
}
