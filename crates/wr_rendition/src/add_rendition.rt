//! addRendition.
ghost use Rattle.std.specs.Prelude.{◌≡◌, Ok, Some, IfOk};
ghost use Rattle.cm_base.specs.Judged.{Writes};
ghost use Rattle.cm_see.specs.Addressed.{addressed};
ghost use Rattle.cmis_spec.specs.Well.{IsWellFormed};
ghost use Rattle.wr_rules.specs.Found.{Finds};
ghost use Rattle.wr_rendition.specs.AddRendition.{cost_add_rendition, judge_addition, refusal_add_rendition, rendition_added, after_add_rendition, acknowledgement_add_rendition};

use crate::draft::added;
use call_parts::replies::ObjectReply;
use cm_base::access::Level;
use cm_base::cause::Cause;
use cm_base::content::Rendition;
use cm_base::copies::Copies;
use cm_base::fail::Fail;
use cm_base::number::{Moment, Oid};
use cm_base::object::Object;
use cm_base::text::Text;
use cm_see::address::addressed;
use cm_see::level::lacks;
use cm_state::state::State;
use cm_types::definition::BaseType;
use rendition_parts::weight::weight_of_add_rendition;
use rendition_parts::writes::AddRendition;
use std::alloc::{AllocError, Global};
use wr_rules::content::is_too_long;
use wr_rules::made::with_changed;
use wr_rules::storage::judge_storage;

// Whether the caller may change the object, it is a document, and the rendition is not too long.
fn judge_addition(state: &State, user: &Text, call: &AddRendition, x: &Object) -> Result<(), Cause>
    ensures { result ≡ judge_addition state.now user.now call.now x.now }
{
    if lacks(state, user, Level::Write, x) {
        return Err(Cause::Denied);
    }
    if !state.is_a(BaseType::Document, x) {
        return Err(Cause::WrongKind);
    }
    if is_too_long(&call.stream) {
        return Err(Cause::StreamLong);
    }
    Ok(())
}

// The document that is addressed, or the cause of the refusal.
fn judge<'a>(state: &'a State, user: &Text, call: &AddRendition) -> Result<&'a Object, Cause>
    ensures { Finds (λ x. x.now) result
        (refusal_add_rendition state.now user.now (cost_add_rendition call.now) call.now)
        (addressed state.now user.now call.now.place) }
{
    judge_storage(state, weight_of_add_rendition(call))?;
    let x = addressed(state, user, &call.place).ok_or(Cause::NotFound)?;
    judge_addition(state, user, call, x)?;
    Ok(x)
}

// The rendition that is given, with the next number. Its bytes are shared.
fn rendition_added(
    alloc: Global,
    state: &State,
    call: &AddRendition,
    x: &Object,
) -> Result<Rendition, AllocError>
    ensures { IfOk result (λ d. d ≡ rendition_added state.now call.now x.now) }
{
    let kind = call.kind.copied(alloc)?;
    let title = Copies::copied(&call.title, alloc)?;
    let media = call.stream.kind.copied(alloc)?;
    let pieces = call.stream.pieces.copied(alloc)?;
    Ok(Rendition {
        of: x.id,
        id: Oid(state.next_number()),
        kind,
        title,
        media,
        pieces,
    })
}

// The state in which the document that the call addresses has the rendition.
fn with_addition(
    alloc: Global,
    state: &State,
    user: &Text,
    moment: Moment,
    call: &AddRendition,
    x: &Object,
) -> Result<State, AllocError>
    requires allowed { refusal_add_rendition state.now user.now (cost_add_rendition call.now) call.now ≡ Ok tt }
    requires found { addressed state.now user.now call.now.place ≡ Some x.now }
    ensures { IfOk result (λ s. s
        ≡ after_add_rendition state.now user.now moment (cost_add_rendition call.now) call.now) }
{
    let _step = state.step();
    let rendition = rendition_added(alloc, state, call, x)?;
    let made = added(
        alloc,
        state,
        rendition,
        moment,
        weight_of_add_rendition(call),
    )?;
    Ok(made)
}

/// Adds a rendition to a document: it draws the next number, whose decimal digits are its stream id. The document's change token stays as
/// it is, and a version that is not the latest, or whose series is checked out, takes renditions too. The cost is the weight of the call.
///
/// The answer is the first cause that refuses the call, or the repository after it and the document as the caller sees it there.
pub fn add_rendition(
    alloc: Global,
    state: &State,
    user: &Text,
    moment: Moment,
    call: &AddRendition,
) -> Result<(State, ObjectReply), Fail>
    ensures written { Writes result
        (refusal_add_rendition state.now user.now (cost_add_rendition call.now) call.now)
        (after_add_rendition state.now user.now moment (cost_add_rendition call.now) call.now)
        (acknowledgement_add_rendition state.now user.now moment
        (cost_add_rendition call.now) call.now) }
    ensures well { IfOk result (λ x. IsWellFormed x.0) }
{
    let _step = state.step();
    let x = judge(state, user, call)?;
    let made = with_addition(alloc, state, user, moment, call, x)?;
    let (next, reply) = with_changed(alloc, made, user, call.succinct, x.id)?;
    let _next_step = next.step();
    Ok((next, reply))
}
