//! The arguments of createDocument.
ghost use Rattle.std.specs.Prelude.{◌≡◌, IfOk};
ghost use Rattle.cm_base.specs.Judged.{Meets};
ghost use Rattle.bind_writes.specs.Documents.{state_of, folder_of, create_document_of};

use crate::words::{
    ADD_ACE_PERMISSION, ADD_ACE_PRINCIPAL, POLICY, REMOVE_ACE_PERMISSION, REMOVE_ACE_PRINCIPAL,
    VERSIONING_STATE,
};
use bind_parts::asking::Asking;
use bind_parts::parts::place_of;
use call_parts::place::Place;
use call_parts::versions::CreateDocument;
use cm_base::argument::Argument;
use cm_base::cause::Cause;
use cm_base::copies::Copies;
use cm_base::fail::Fail;
use cm_base::series::VersioningState;
use form_args::choice::flag;
use form_args::entries::aces;
use form_args::lists::texts;
use form_args::pairs::Pairs;
use form_args::properties::{properties, typed};
use form_args::words::SUCCINCT;
use request_target::target::Target;
use std::alloc::{AllocError, Global};

fn state_of(pairs: &Pairs) -> Result<Option<VersioningState>, Cause>
    ensures { result ≡ state_of pairs.now }
{
    match pairs.first(VERSIONING_STATE) {
        None => Ok(None),
        Some(word) => match VersioningState::of_word(word.as_str()) {
            Some(state) => Ok(Some(state)),
            None => Err(Cause::BadArgument(Argument::named(VERSIONING_STATE))),
        },
    }
}

fn folder_of(alloc: Global, asking: &Asking) -> Result<Option<Place>, AllocError>
    ensures { IfOk result (λ p. p ≡ folder_of asking.now) }
{
    match &asking.address {
        Target::Service => Ok(None),
        Target::Repository => Ok(None),
        Target::Object(_) => Ok(Some(place_of(alloc, asking)?)),
    }
}

/// The call that the arguments make, or the first of their causes. A document that is made at the repository's address is in no
/// folder, and objectId is no argument there.
#[tactic(auto, using(cm_types::proofs::Exits::fails_bind, cm_types::proofs::Exits::fails_then))]
pub fn create_document_of(alloc: Global, asking: &Asking) -> Result<CreateDocument, Fail>
    ensures { Meets (λ c. c) result (create_document_of asking.now) }
{
    let pairs = &asking.form.pairs;
    let succinct = flag(pairs, SUCCINCT, false)?;
    let properties = properties(alloc, pairs)?;
    typed(properties.as_slice())?;
    let add = aces(alloc, pairs, ADD_ACE_PRINCIPAL, ADD_ACE_PERMISSION)?;
    let remove = aces(alloc, pairs, REMOVE_ACE_PRINCIPAL, REMOVE_ACE_PERMISSION)?;
    let state = state_of(pairs)?;
    Ok(CreateDocument {
        place: folder_of(alloc, asking)?,
        properties,
        policies: texts(alloc, pairs, POLICY)?,
        remove,
        add,
        state,
        stream: Copies::copied(&asking.form.content, alloc)?,
        succinct,
    })
}
