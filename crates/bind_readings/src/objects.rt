//! The arguments of object and properties.
ghost use Rattle.std.specs.Prelude.{◌≡◌};
ghost use Rattle.cm_base.specs.Judged.{Meets};
ghost use Rattle.bind_readings.specs.Objects.{show_object_of, show_properties_of};

use crate::includes::{includes_of, version_of};
use bind_parts::asking::Asking;
use bind_parts::parts::place_of;
use call_parts::readings::{ReadObject, ReadProperties};
use cm_base::fail::Fail;
use form_args::choice::flag;
use form_args::filter::property_filter;
use form_args::words::SUCCINCT;
use include_parts::readings::{ShowObject, ShowProperties};
use std::alloc::Global;

/// The question of the selector object, or the first cause of its arguments.
#[tactic(auto, using(cm_types::proofs::Exits::fails_bind))]
pub fn show_object_of(alloc: Global, asking: &Asking) -> Result<ShowObject, Fail>
    ensures { Meets (λ c. c) result (show_object_of asking.now) }
{
    let pairs = &asking.form.pairs;
    let succinct = flag(pairs, SUCCINCT, false)?;
    let filter = property_filter(alloc, pairs)?;
    let version = version_of(pairs)?;
    let includes = includes_of(alloc, pairs)?;
    let place = place_of(alloc, asking)?;
    Ok(ShowObject {
        object: ReadObject {
            place,
            filter,
            succinct,
        },
        version,
        includes,
    })
}

/// The question of the selector properties, or the first cause of its arguments.
#[tactic(auto, using(cm_types::proofs::Exits::fails_bind))]
pub fn show_properties_of(alloc: Global, asking: &Asking) -> Result<ShowProperties, Fail>
    ensures { Meets (λ c. c) result (show_properties_of asking.now) }
{
    let pairs = &asking.form.pairs;
    let succinct = flag(pairs, SUCCINCT, false)?;
    let filter = property_filter(alloc, pairs)?;
    let version = version_of(pairs)?;
    let place = place_of(alloc, asking)?;
    Ok(ShowProperties {
        properties: ReadProperties {
            place,
            filter,
            succinct,
        },
        version,
    })
}
