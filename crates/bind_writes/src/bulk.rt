//! The arguments of bulkUpdate.
ghost use Rattle.std.specs.Prelude.{◌≡◌};
ghost use Rattle.cm_base.specs.Judged.{Meets};
ghost use Rattle.bind_writes.specs.Bulk.{bulk_update_of};

use crate::bulk_objects::objects_of;
use crate::words::{ADD_SECONDARY_TYPE_ID, REMOVE_SECONDARY_TYPE_ID};
use bind_parts::asking::Asking;
use bulk_parts::writes::BulkUpdate;
use cm_base::fail::Fail;
use form_args::lists::texts;
use form_args::properties::properties;
use std::alloc::Global;

/// The bulkUpdate that the arguments make, or the first of their causes. It names its objects in a list; a token or an id alone means
/// nothing.
#[tactic(auto, using(cm_types::proofs::Exits::fails_bind))]
pub fn bulk_update_of(alloc: Global, asking: &Asking) -> Result<BulkUpdate, Fail>
    ensures { Meets (λ c. c) result (bulk_update_of asking.now) }
{
    let pairs = &asking.form.pairs;
    let properties = properties(alloc, pairs)?;
    let objects = objects_of(alloc, pairs)?;
    Ok(BulkUpdate {
        objects,
        properties,
        remove_secondary: texts(alloc, pairs, REMOVE_SECONDARY_TYPE_ID)?,
        add_secondary: texts(alloc, pairs, ADD_SECONDARY_TYPE_ID)?,
    })
}
