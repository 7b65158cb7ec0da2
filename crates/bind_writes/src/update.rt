//! The arguments of update.
ghost use Rattle.std.specs.Prelude.{◌≡◌};
ghost use Rattle.cm_base.specs.Judged.{Meets};
ghost use Rattle.bind_writes.specs.Update.{update_of};

use crate::words::{ADD_SECONDARY_TYPE_ID, CHANGE_TOKEN, REMOVE_SECONDARY_TYPE_ID};
use bind_parts::asking::Asking;
use bind_parts::parts::{place_of, text_of};
use call_parts::changes::UpdateProperties;
use cm_base::fail::Fail;
use form_args::choice::flag;
use form_args::lists::texts;
use form_args::properties::properties;
use form_args::words::SUCCINCT;
use std::alloc::Global;

/// The update that the arguments make, or the first of their causes.
#[tactic(auto, using(cm_types::proofs::Exits::fails_bind))]
pub fn update_of(alloc: Global, asking: &Asking) -> Result<UpdateProperties, Fail>
    ensures { Meets (λ c. c) result (update_of asking.now) }
{
    let pairs = &asking.form.pairs;
    let succinct = flag(pairs, SUCCINCT, false)?;
    let properties = properties(alloc, pairs)?;
    Ok(UpdateProperties {
        place: place_of(alloc, asking)?,
        properties,
        remove_secondary: texts(alloc, pairs, REMOVE_SECONDARY_TYPE_ID)?,
        add_secondary: texts(alloc, pairs, ADD_SECONDARY_TYPE_ID)?,
        token: text_of(alloc, pairs, CHANGE_TOKEN)?,
        succinct,
    })
}
