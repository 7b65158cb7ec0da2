//! The arguments of createDocumentFromSource.
ghost use Rattle.std.specs.Prelude.{◌≡◌, IfOk};
ghost use Rattle.cm_base.specs.Judged.{Meets};
ghost use Rattle.form_args.specs.Single.{needed};
ghost use Rattle.bind_writes.specs.Documents.{state_of, folder_of};
ghost use Rattle.bind_writes.specs.Source.{create_document_from_source_of};

use crate::words::{
    ADD_ACE_PERMISSION, ADD_ACE_PRINCIPAL, POLICY, REMOVE_ACE_PERMISSION, REMOVE_ACE_PRINCIPAL,
    VERSIONING_STATE,
};
use bind_parts::asking::Asking;
use bind_parts::parts::place_of;
use call_parts::place::Place;
use call_parts::versions::CreateDocument;
use cm_base::argument::Argument;
use cm_base::cause::Cause;
use cm_base::copies::Copies;
use cm_base::fail::Fail;
use cm_base::series::VersioningState;
use cm_base::text::Text;
use form_args::choice::flag;
use form_args::entries::aces;
use form_args::lists::texts;
use form_args::pairs::Pairs;
use form_args::properties::properties;
use form_args::words::SUCCINCT;
use request_target::target::Target;
use source_parts::writes::CreateDocumentFromSource;
use std::alloc::{AllocError, Global};

const SOURCE_ID: &str = "sourceId";

// The versioning state, where it is given.
fn state_of(pairs: &Pairs) -> Result<Option<VersioningState>, Cause>
    ensures { result ≡ state_of pairs.now }
{
    match pairs.first(VERSIONING_STATE) {
        None => Ok(None),
        Some(word) => match VersioningState::of_word(word.as_str()) {
            Some(state) => Ok(Some(state)),
            None => Err(Cause::BadArgument(Argument::named(VERSIONING_STATE))),
        },
    }
}

// No folder but at the address of an object.
fn folder_of(alloc: Global, asking: &Asking) -> Result<Option<Place>, AllocError>
    ensures { IfOk result (λ p. p ≡ folder_of asking.now) }
{
    match &asking.address {
        Target::Service => Ok(None),
        Target::Repository => Ok(None),
        Target::Object(_) => Ok(Some(place_of(alloc, asking)?)),
    }
}

// The value of an argument that must be given.
fn needed(alloc: Global, pairs: &Pairs, name: &'static str) -> Result<Text, Fail>
    ensures { Meets (λ t. t) result (needed pairs.now name.now) }
{
    match pairs.first(name) {
        None => Err(Fail::Refused(Cause::MissingArgument(Argument::named(name)))),
        Some(value) => {
            let value = value.copied(alloc)?;
            Ok(value)
        }
    }
}

/// The createDocumentFromSource that the arguments make, or the first of their causes. The properties need not name a type; a request
/// without sourceId is MissingArgument. A document that is made at the repository's address is in no folder, and objectId is no
/// argument there.
#[tactic(auto, using(cm_types::proofs::Exits::fails_bind))]
pub fn create_document_from_source_of(
    alloc: Global,
    asking: &Asking,
) -> Result<CreateDocumentFromSource, Fail>
    ensures { Meets (λ c. c) result (create_document_from_source_of asking.now) }
{
    let pairs = &asking.form.pairs;
    let succinct = flag(pairs, SUCCINCT, false)?;
    let properties = properties(alloc, pairs)?;
    let add = aces(alloc, pairs, ADD_ACE_PRINCIPAL, ADD_ACE_PERMISSION)?;
    let remove = aces(alloc, pairs, REMOVE_ACE_PRINCIPAL, REMOVE_ACE_PERMISSION)?;
    let state = state_of(pairs)?;
    let source = needed(alloc, pairs, SOURCE_ID)?;
    let document = CreateDocument {
        place: folder_of(alloc, asking)?,
        properties,
        policies: texts(alloc, pairs, POLICY)?,
        remove,
        add,
        state,
        stream: Copies::copied(&asking.form.content, alloc)?,
        succinct,
    };
    Ok(CreateDocumentFromSource { source, document })
}
