//! What the calls on content ask of a document, and the document as they leave it.
ghost use Rattle.std.specs.Prelude.{◌≡◌, ◌+◌, ◌<◌, ◌^◌, IfOk, is_some, true};
ghost use Rattle.cm_base.specs.Judged.{Meets};
ghost use Rattle.cmis_spec.specs.Repository.{object_at};
ghost use Rattle.cmis_spec.specs.Well.{IsWellFormed};
ghost use Rattle.wr_content.specs.Changed.{changed_by, filled, cleared};
ghost use Rattle.wr_content.specs.Document.{judge_document, is_barred, is_needed};

use cm_base::access::Level;
use cm_base::cause::Cause;
use cm_base::content::Content;
use cm_base::copies::Copies;
use cm_base::fail::Fail;
use cm_base::items::Items;
use cm_base::log::ChangeKind;
use cm_base::number::Moment;
use cm_base::object::Object;
use cm_base::text::Text;
use cm_draft::draft::Draft;
use cm_see::level::lacks;
use cm_state::state::State;
use cm_types::definition::BaseType;
use std::alloc::{AllocError, Global};
use wr_rules::content::{bars_content, needs_content};
use wr_rules::token::judge_token;
use wr_rules::versions::judge_changeable;

/// Whether the caller may change the object, the token is its own, and it is a document that may be changed.
pub(crate) fn judge_document(
    alloc: Global,
    state: &State,
    user: &Text,
    token: &Option<Text>,
    x: &Object,
) -> Result<(), Fail>
    ensures { Meets (λ u. u) result (judge_document state.now user.now token.now x.now) }
{
    if lacks(state, user, Level::Write, x) {
        return Err(Fail::Refused(Cause::Denied));
    }
    judge_token(alloc, x, token)?;
    if !state.is_a(BaseType::Document, x) {
        return Err(Fail::Refused(Cause::WrongKind));
    }
    judge_changeable(state, x)?;
    Ok(())
}

/// Whether the type of the document allows no content.
pub(crate) fn is_barred(state: &State, x: &Object) -> bool
    ensures { result ≡ is_barred state.now x.now }
{
    match state.type_named(&x.kind) {
        Some(kind) => bars_content(kind),
        None => false,
    }
}

/// Whether the type of the document requires content.
pub(crate) fn is_needed(state: &State, x: &Object) -> bool
    ensures { result ≡ is_needed state.now x.now }
{
    match state.type_named(&x.kind) {
        Some(kind) => needs_content(kind),
        None => false,
    }
}

/// The document as the caller changed it in the next step.
pub(crate) fn changed_by(
    alloc: Global,
    state: &State,
    user: &Text,
    moment: Moment,
    x: &Object,
) -> Result<Object, AllocError>
    requires room { state.now.step + 1 < 2 ^ 64 }
    ensures { IfOk result (λ y. y ≡ changed_by state.now user.now moment x.now) }
{
    let modified_by = user.copied(alloc)?;
    let old = x.copied(alloc)?;
    Ok(Object {
        modified_by,
        modified_at: moment,
        token: state.step() + 1,
        ..old
    })
}

/// The changed document in its place with this content, one step further, with its event.
pub(crate) fn filled(
    alloc: Global,
    state: &State,
    x: Object,
    content: Content,
    cost: u64,
) -> Result<State, AllocError>
    requires there { is_some (object_at state.now x.id) ≡ true }
    requires step { state.now.step + 1 < 2 ^ 64 }
    requires cost { state.now.cost + cost < 2 ^ 64 }
    requires well { IsWellFormed (filled state.now x content cost) }
    ensures { IfOk result (λ s. s ≡ filled state.now x content cost) }
{
    let number = x.id;
    let moment = x.modified_at;
    let begun = Draft::of(alloc, state)?;
    let put = begun.edited(alloc, x)?;
    let full = put.with_content(alloc, content)?;
    let paid = full.stepped(cost);
    let noted = paid.noted(
        alloc,
        ChangeKind::Updated,
        number,
        moment,
        Items::new(alloc),
    )?;
    Ok(noted.seal())
}

/// The changed document in its place without content, one step further, with its event.
pub(crate) fn cleared(
    alloc: Global,
    state: &State,
    x: Object,
    cost: u64,
) -> Result<State, AllocError>
    requires there { is_some (object_at state.now x.id) ≡ true }
    requires step { state.now.step + 1 < 2 ^ 64 }
    requires cost { state.now.cost + cost < 2 ^ 64 }
    requires well { IsWellFormed (cleared state.now x cost) }
    ensures { IfOk result (λ s. s ≡ cleared state.now x cost) }
{
    let number = x.id;
    let moment = x.modified_at;
    let begun = Draft::of(alloc, state)?;
    let put = begun.edited(alloc, x)?;
    let empty = put.without_content(alloc, number)?;
    let paid = empty.stepped(cost);
    let noted = paid.noted(
        alloc,
        ChangeKind::Updated,
        number,
        moment,
        Items::new(alloc),
    )?;
    Ok(noted.seal())
}
