//! The arguments of checkOut, cancelCheckOut and checkIn.
ghost use Rattle.std.specs.Prelude.{◌≡◌};
ghost use Rattle.cm_base.specs.Judged.{Meets};
ghost use Rattle.bind_writes.specs.Documents.{check_out_of, cancel_check_out_of, check_in_of};

use bind_parts::asking::Asking;
use bind_parts::parts::{place_of, text_of};
use call_parts::versions::{CancelCheckOut, CheckIn, CheckOut};
use cm_base::copies::Copies;
use cm_base::fail::Fail;
use form_args::choice::flag;
use form_args::properties::properties;
use form_args::words::SUCCINCT;
use std::alloc::Global;

const CHECKIN_COMMENT: &str = "checkinComment";

const MAJOR: &str = "major";

/// The checkOut that the arguments make, or the first of their causes.
pub fn check_out_of(alloc: Global, asking: &Asking) -> Result<CheckOut, Fail>
    ensures { Meets (λ c. c) result (check_out_of asking.now) }
{
    let succinct = flag(&asking.form.pairs, SUCCINCT, false)?;
    let place = place_of(alloc, asking)?;
    Ok(CheckOut { place, succinct })
}

/// The cancelCheckOut that the arguments make; they have no causes.
pub fn cancel_check_out_of(alloc: Global, asking: &Asking) -> Result<CancelCheckOut, Fail>
    ensures { Meets (λ c. c) result (cancel_check_out_of asking.now) }
{
    let place = place_of(alloc, asking)?;
    Ok(CancelCheckOut { place })
}

/// The checkIn that the arguments make, or the first of their causes.
#[tactic(auto, using(cm_types::proofs::Exits::fails_bind))]
pub fn check_in_of(alloc: Global, asking: &Asking) -> Result<CheckIn, Fail>
    ensures { Meets (λ c. c) result (check_in_of asking.now) }
{
    let pairs = &asking.form.pairs;
    let succinct = flag(pairs, SUCCINCT, false)?;
    let major = flag(pairs, MAJOR, true)?;
    let properties = properties(alloc, pairs)?;
    Ok(CheckIn {
        place: place_of(alloc, asking)?,
        major,
        comment: text_of(alloc, pairs, CHECKIN_COMMENT)?,
        properties,
        stream: Copies::copied(&asking.form.content, alloc)?,
        succinct,
    })
}
