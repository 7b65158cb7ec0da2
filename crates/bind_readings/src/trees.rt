//! The arguments of descendants, folderTree and checkedout.
ghost use Rattle.std.specs.Prelude.{◌≡◌, IfOk};
ghost use Rattle.cm_base.specs.Judged.{Meets};
ghost use Rattle.bind_readings.specs.Trees.{checked_out_of, descendants_of, folder_of, folder_tree_of, tree_depth, tree_of};

use crate::includes::includes_of;
use crate::options::depth_of_word;
use crate::order::order_of;
use crate::words::{
    DEPTH, INCLUDE_PATH_SEGMENT, INCLUDE_RELATIVE_PATH_SEGMENT, MAX_ITEMS, SKIP_COUNT,
};
use bind_parts::asking::Asking;
use bind_parts::parts::place_of;
use call_parts::place::Place;
use cm_base::argument::Argument;
use cm_base::cause::Cause;
use cm_base::fail::Fail;
use form_args::choice::flag;
use form_args::filter::property_filter;
use form_args::number::number;
use form_args::pairs::Pairs;
use form_args::words::SUCCINCT;
use include_parts::readings::{ShowCheckedOut, ShowTree};
use request_target::target::Target;
use std::alloc::{AllocError, Global};
use tree_parts::readings::{ReadCheckedOut, ReadTree};
use type_parts::readings::Depth;

fn tree_depth(pairs: &Pairs) -> Result<Depth, Cause>
    ensures { result ≡ tree_depth pairs.now }
{
    match pairs.first(DEPTH) {
        None => Ok(Depth::Levels(2)),
        Some(word) => match depth_of_word(word.as_str()) {
            Some(depth) => Ok(depth),
            None => Err(Cause::BadArgument(Argument::named(DEPTH))),
        },
    }
}

// includeRelativePathSegment is judged, since it is an argument of other lists too, and means nothing here.
#[tactic(auto, using(cm_types::proofs::Exits::fails_bind))]
fn tree_of(alloc: Global, folders_only: bool, asking: &Asking) -> Result<ShowTree, Fail>
    ensures { Meets (λ c. c) result (tree_of folders_only asking.now) }
{
    let pairs = &asking.form.pairs;
    let succinct = flag(pairs, SUCCINCT, false)?;
    let includes = includes_of(alloc, pairs)?;
    let filter = property_filter(alloc, pairs)?;
    let depth = tree_depth(pairs)?;
    let segments = flag(pairs, INCLUDE_PATH_SEGMENT, false)?;
    let _judged = flag(pairs, INCLUDE_RELATIVE_PATH_SEGMENT, false)?;
    let place = place_of(alloc, asking)?;
    Ok(ShowTree {
        tree: ReadTree {
            place,
            filter,
            depth,
            segments,
            succinct,
            folders_only,
        },
        includes,
    })
}

/// The question of the selector descendants, or the first cause of its arguments.
pub fn descendants_of(alloc: Global, asking: &Asking) -> Result<ShowTree, Fail>
    ensures { Meets (λ c. c) result (descendants_of asking.now) }
{
    tree_of(alloc, false, asking)
}

/// The question of the selector folderTree, or the first cause of its arguments.
pub fn folder_tree_of(alloc: Global, asking: &Asking) -> Result<ShowTree, Fail>
    ensures { Meets (λ c. c) result (folder_tree_of asking.now) }
{
    tree_of(alloc, true, asking)
}

fn folder_of(alloc: Global, asking: &Asking) -> Result<Option<Place>, AllocError>
    ensures { IfOk result (λ p. p ≡ folder_of asking.now) }
{
    match &asking.address {
        Target::Service => Ok(None),
        Target::Repository => Ok(None),
        Target::Object(_) => Ok(Some(place_of(alloc, asking)?)),
    }
}

/// The question of the selector checkedout, or the first cause of its arguments. At the address of the repository it names no folder.
/// includePathSegment and includeRelativePathSegment are judged, since they are arguments of other lists too, and mean nothing here.
#[tactic(auto, using(cm_types::proofs::Exits::fails_bind))]
pub fn checked_out_of(alloc: Global, asking: &Asking) -> Result<ShowCheckedOut, Fail>
    ensures { Meets (λ c. c) result (checked_out_of asking.now) }
{
    let pairs = &asking.form.pairs;
    let succinct = flag(pairs, SUCCINCT, false)?;
    let includes = includes_of(alloc, pairs)?;
    let filter = property_filter(alloc, pairs)?;
    let max_items = number(pairs, MAX_ITEMS, 100)?;
    let skip_count = number(pairs, SKIP_COUNT, 0)?;
    let order = order_of(alloc, pairs)?;
    let _judged = flag(pairs, INCLUDE_PATH_SEGMENT, false)?;
    let _judged_too = flag(pairs, INCLUDE_RELATIVE_PATH_SEGMENT, false)?;
    let place = folder_of(alloc, asking)?;
    Ok(ShowCheckedOut {
        checked_out: ReadCheckedOut {
            place,
            filter,
            max_items,
            skip_count,
            succinct,
        },
        order,
        includes,
    })
}
