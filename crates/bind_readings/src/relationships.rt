//! The arguments of relationships.
ghost use Rattle.std.specs.Prelude.{◌≡◌};
ghost use Rattle.cm_base.specs.Judged.{Meets};
ghost use Rattle.bind_readings.specs.Relationships.{direction_named, direction_of, relationships_of};

use crate::includes::includes_of;
use crate::words::{INCLUDE_PATH_SEGMENT, INCLUDE_RELATIVE_PATH_SEGMENT, MAX_ITEMS, SKIP_COUNT};
use bind_parts::asking::Asking;
use bind_parts::parts::{place_of, text_of};
use cm_base::argument::Argument;
use cm_base::cause::Cause;
use cm_base::fail::Fail;
use form_args::choice::flag;
use form_args::filter::property_filter;
use form_args::number::number;
use form_args::pairs::Pairs;
use form_args::words::{SUCCINCT, TYPE_ID};
use include_parts::readings::ShowRelationships;
use relationship_parts::readings::{Direction, ReadRelationships};
use std::alloc::Global;

const INCLUDE_SUB_RELATIONSHIP_TYPES: &str = "includeSubRelationshipTypes";

const RELATIONSHIP_DIRECTION: &str = "relationshipDirection";

fn direction_named(word: &str) -> Option<Direction>
    ensures { result ≡ direction_named word.now }
{
    if word == "source" {
        Some(Direction::Source)
    } else if word == "target" {
        Some(Direction::Target)
    } else if word == "either" {
        Some(Direction::Either)
    } else {
        None
    }
}

fn direction_of(pairs: &Pairs) -> Result<Direction, Cause>
    ensures { result ≡ direction_of pairs.now }
{
    match pairs.first(RELATIONSHIP_DIRECTION) {
        None => Ok(Direction::Source),
        Some(word) => match direction_named(word.as_str()) {
            Some(direction) => Ok(direction),
            None => Err(Cause::BadArgument(Argument::named(RELATIONSHIP_DIRECTION))),
        },
    }
}

/// The question of the selector relationships, or the first cause of its arguments. includePathSegment and includeRelativePathSegment
/// are judged, since they are arguments of other lists too, and mean nothing here.
#[tactic(auto, using(cm_types::proofs::Exits::fails_bind))]
pub fn relationships_of(alloc: Global, asking: &Asking) -> Result<ShowRelationships, Fail>
    ensures { Meets (λ c. c) result (relationships_of asking.now) }
{
    let pairs = &asking.form.pairs;
    let succinct = flag(pairs, SUCCINCT, false)?;
    let includes = includes_of(alloc, pairs)?;
    let filter = property_filter(alloc, pairs)?;
    let max_items = number(pairs, MAX_ITEMS, 100)?;
    let skip_count = number(pairs, SKIP_COUNT, 0)?;
    let _judged = flag(pairs, INCLUDE_PATH_SEGMENT, false)?;
    let _judged_too = flag(pairs, INCLUDE_RELATIVE_PATH_SEGMENT, false)?;
    let direction = direction_of(pairs)?;
    let with_subtypes = flag(pairs, INCLUDE_SUB_RELATIONSHIP_TYPES, false)?;
    let kind = text_of(alloc, pairs, TYPE_ID)?;
    let place = place_of(alloc, asking)?;
    Ok(ShowRelationships {
        relationships: ReadRelationships {
            place,
            direction,
            kind,
            with_subtypes,
            filter,
            max_items,
            skip_count,
            succinct,
        },
        includes,
    })
}
