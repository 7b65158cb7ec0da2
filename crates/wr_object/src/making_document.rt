//! A document that is made with its series, as a draft.
ghost use Rattle.std.specs.Prelude.{◌≡◌, ◌+◌, ◌<◌, ◌^◌, [], Some, None, IfOk, option_map};
ghost use Rattle.cm_base.specs.declared.log.ChangeKind.TheVariants.{Created};
ghost use Rattle.cmis_spec.specs.Repository.{new_number};
ghost use Rattle.cmis_spec.specs.Changes.{stepped, noted};
ghost use Rattle.cmis_spec.specs.Documents.{with_document, with_policies, with_contents};
ghost use Rattle.wr_rules.specs.Documents.{content_of_stream};
ghost use Rattle.wr_object.specs.CreateDocument.{own_name, filed_at, with_parts, made_of_parts};

use crate::new_document::NewDocument;
use call_parts::stream::GivenStream;
use cm_base::access::{AccessList, Aces};
use cm_base::content::Content;
use cm_base::items::Items;
use cm_base::log::ChangeKind;
use cm_base::number::{Moment, Oid};
use cm_base::object::Object;
use cm_base::series::{Series, VersioningState};
use cm_base::text::Text;
use cm_draft::draft::Draft;
use cm_state::state::State;
use std::alloc::{AllocError, Global};
use wr_rules::content::content_of_stream;

/// The name that the document has of its own: a working copy has one, a version takes that of its series.
pub fn own_name(state: VersioningState, name: Text) -> Option<Text>
    ensures { result ≡ own_name state name }
{
    match state {
        VersioningState::CheckedOut => Some(name),
        VersioningState::None => None,
        VersioningState::Minor => None,
        VersioningState::Major => None,
    }
}

/// The content of the document that is made next, if a stream is given.
pub fn new_content(
    alloc: Global,
    state: &State,
    name: &Text,
    stream: &Option<GivenStream>,
) -> Result<Option<Content>, AllocError>
    requires room { state.now.step + 1 < 2 ^ 64 }
    ensures { IfOk result (λ c. c ≡
        option_map (content_of_stream (new_number state.now) name.now (state.now.step + 1)) stream.now) }
{
    let number = Oid(state.next_number());
    let step = state.step() + 1;
    match stream {
        Some(stream) => {
            let content = content_of_stream(alloc, number, name, step, stream)?;
            Ok(Some(content))
        }
        None => Ok(None),
    }
}

// The document with its series and the access list of the series.
fn begun_with(
    alloc: Global,
    state: &State,
    object: Object,
    series: Series,
    aces: Aces,
) -> Result<Draft, AllocError>
    requires number { object.id ≡ new_number state.now }
    requires first { series.id ≡ new_number state.now }
    requires next { state.now.next + 1 < 2 ^ 64 }
    ensures { IfOk result (λ d. d ≡ with_document state.now object series aces) }
{
    let number = series.id;
    let _step = state.step();
    let begun = Draft::of(alloc, state)?;
    let made = begun.with_member(alloc, object)?;
    let entered = made.with_series(alloc, series)?;
    let listed = entered.with_list(alloc, AccessList { at: number, aces })?;
    Ok(listed)
}

// The draft with a content, if there is one.
fn with_contents(alloc: Global, draft: Draft, content: Option<Content>) -> Result<Draft, AllocError>
    ensures { IfOk result (λ d. d ≡ with_contents draft content) }
{
    match content {
        Some(content) => {
            let full = draft.with_content(alloc, content)?;
            Ok(full)
        }
        None => Ok(draft),
    }
}

// The draft with the child in the folder, if there is one.
fn filed_at(
    alloc: Global,
    draft: Draft,
    folder: Option<Oid>,
    number: Oid,
) -> Result<Draft, AllocError>
    ensures { IfOk result (λ d. d ≡ filed_at draft folder number) }
{
    match folder {
        Some(folder) => {
            let filed = draft.with_pair(alloc, folder, number)?;
            Ok(filed)
        }
        None => Ok(draft),
    }
}

// The policies, the content and the place of the document with this number.
fn filled_with(
    alloc: Global,
    draft: Draft,
    number: Oid,
    policies: &[Oid],
    content: Option<Content>,
    folder: Option<Oid>,
) -> Result<Draft, AllocError>
    ensures { IfOk result (λ d. d ≡
        filed_at (with_contents (with_policies draft number policies.now) content) folder number) }
{
    let ruled = draft.with_policies(alloc, number, policies)?;
    let full = with_contents(alloc, ruled, content)?;
    let filed = filed_at(alloc, full, folder, number)?;
    Ok(filed)
}

// The new document in its place.
fn with_parts(
    alloc: Global,
    state: &State,
    new: NewDocument,
    aces: Aces,
    policies: &[Oid],
) -> Result<Draft, AllocError>
    requires number { new.object.id ≡ new_number state.now }
    requires first { new.series.id ≡ new_number state.now }
    requires next { state.now.next + 1 < 2 ^ 64 }
    ensures { IfOk result (λ d. d ≡ with_parts state.now new aces policies.now) }
{
    let number = new.object.id;
    let content = new.content;
    let folder = new.folder;
    let begun = begun_with(alloc, state, new.object, new.series, aces)?;
    let filled = filled_with(alloc, begun, number, policies, content, folder)?;
    Ok(filled)
}

// One step further, with the event of what was created.
fn created(
    alloc: Global,
    draft: Draft,
    number: Oid,
    cost: u64,
    moment: Moment,
) -> Result<Draft, AllocError>
    requires step { draft.step + 1 < 2 ^ 64 }
    requires cost { draft.cost + cost < 2 ^ 64 }
    ensures { IfOk result (λ d. d ≡ noted (stepped draft cost) Created number moment []) }
{
    let paid = draft.stepped(cost);
    let noted = paid.noted(
        alloc,
        ChangeKind::Created,
        number,
        moment,
        Items::new(alloc),
    )?;
    Ok(noted)
}

/// The document with its series, its access list and its policies, its content, and its place, one step further, with its event.
pub fn document_in(
    alloc: Global,
    state: &State,
    new: NewDocument,
    aces: Aces,
    policies: &[Oid],
    cost: u64,
    moment: Moment,
) -> Result<Draft, AllocError>
    requires number { new.object.id ≡ new_number state.now }
    requires first { new.series.id ≡ new_number state.now }
    requires next { state.now.next + 1 < 2 ^ 64 }
    requires step { state.now.step + 1 < 2 ^ 64 }
    requires cost { state.now.cost + cost < 2 ^ 64 }
    ensures { IfOk result (λ d. d ≡ made_of_parts state.now new aces policies.now cost moment) }
{
    let number = new.object.id;
    let made = with_parts(alloc, state, new, aces, policies)?;
    let noted = created(alloc, made, number, cost, moment)?;
    Ok(noted)
}
