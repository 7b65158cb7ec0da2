//! The arguments of createFolder.
ghost use Rattle.std.specs.Prelude.{◌≡◌};
ghost use Rattle.cm_base.specs.Judged.{Meets};
ghost use Rattle.bind_writes.specs.CreateFolder.{create_folder_of};

use crate::words::{
    ADD_ACE_PERMISSION, ADD_ACE_PRINCIPAL, POLICY, REMOVE_ACE_PERMISSION, REMOVE_ACE_PRINCIPAL,
};
use bind_parts::asking::Asking;
use bind_parts::parts::place_of;
use call_parts::writes::CreateFolder;
use cm_base::fail::Fail;
use form_args::choice::flag;
use form_args::entries::aces;
use form_args::lists::texts;
use form_args::properties::{properties, typed};
use form_args::words::SUCCINCT;
use std::alloc::Global;

/// The call that the arguments make, or the first of their causes.
#[tactic(auto, using(cm_types::proofs::Exits::fails_bind, cm_types::proofs::Exits::fails_then))]
pub fn create_folder_of(alloc: Global, asking: &Asking) -> Result<CreateFolder, Fail>
    ensures { Meets (λ c. c) result (create_folder_of asking.now) }
{
    let pairs = &asking.form.pairs;
    let succinct = flag(pairs, SUCCINCT, false)?;
    let properties = properties(alloc, pairs)?;
    typed(properties.as_slice())?;
    let add = aces(alloc, pairs, ADD_ACE_PRINCIPAL, ADD_ACE_PERMISSION)?;
    let remove = aces(alloc, pairs, REMOVE_ACE_PRINCIPAL, REMOVE_ACE_PERMISSION)?;
    let policies = texts(alloc, pairs, POLICY)?;
    let place = place_of(alloc, asking)?;
    Ok(CreateFolder {
        place,
        properties,
        policies,
        remove,
        add,
        succinct,
    })
}
