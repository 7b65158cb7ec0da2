//! createDocument (CMIS 1.1, section 2.2.4.1).
ghost use Rattle.std.specs.Prelude.{◌≡◌, ◌+◌, ◌<◌, ◌^◌, [], Ok, Some, IfOk};
ghost use Rattle.std.specs.Option.{option_copied};
ghost use Rattle.cm_base.specs.Judged.{Leaves, Writes};
ghost use Rattle.cm_types.specs.declared.given.PropertyCall.TheVariants as calls;
ghost use Rattle.cmis_spec.specs.Repository.{object_at, new_number};
ghost use Rattle.cmis_spec.specs.Values.{values_kept};
ghost use Rattle.cmis_spec.specs.Well.{IsWellFormed};
ghost use Rattle.wr_object.specs.CreateDocument.{cost_create_document, judge_found, refusal_of_document, refusal_create_document, number_of, allowed_in, new_document, new_parts, parts_made, after_create_document, acknowledgement_create_document};
ghost use Rattle.wr_rules.specs.Wanted.{wanted_in};

use crate::asked::{judge_values, wanted_of};
use crate::document_rules::{folder_of, judge_kinds, judge_name, judge_place, number_of, state_of};
use crate::making_document::{document_in, new_content, own_name};
use crate::new_document::{Allowed, NewDocument};
use call_parts::replies::ObjectReply;
use call_parts::versions::CreateDocument;
use call_parts::weight::weight_of_create_document;
use cm_base::cause::Cause;
use cm_base::copies::Copies;
use cm_base::fail::Fail;
use cm_base::number::{Moment, Oid};
use cm_base::object::Object;
use cm_base::text::Text;
use cm_base::value::Values;
use cm_series::begin::begin;
use cm_state::state::State;
use cm_types::definition::TypeDef;
use std::alloc::{AllocError, Global};
use wr_rules::costs::with_defaults;
use wr_rules::entries::new_aces;
use wr_rules::kinds::judge_types;
use wr_rules::made::with_reply;
use wr_rules::policies::{judge_read, policies_in};
use wr_rules::storage::judge_storage;
use wr_rules::wanted::Wanted;

fn cost_of(state: &State, call: &CreateDocument, wanted: &Wanted<'_>) -> u64
    requires wanted { wanted.now ≡ wanted_in state.now.types call.now.properties }
    ensures { result ≡ cost_create_document state.now call.now }
{
    let weight = weight_of_create_document(call);
    match state.types().find(&wanted.kind) {
        Some(_) => with_defaults(weight, &wanted.defs, call.properties.as_slice()),
        None => weight,
    }
}

// All lines of the refusal but those that find the folder and the type.
#[tactic(auto, using(cm_types::proofs::Exits::fails_then))]
fn judge_found(
    alloc: Global,
    state: &State,
    user: &Text,
    call: &CreateDocument,
    wanted: &Wanted<'_>,
    folder: Option<&Object>,
    kind: &TypeDef,
) -> Result<Values, Fail>
    ensures { Leaves result
        (judge_found state.now user.now call.now wanted.now (option_copied folder.entry) kind.now)
        (values_kept calls.Create wanted.now.defs [] call.now.properties) }
{
    judge_kinds(
        alloc,
        state,
        user,
        call.policies.as_slice(),
        wanted.secondary.as_slice(),
        folder,
        kind,
    )?;
    judge_place(state, call, folder, kind)?;
    let values = judge_values(alloc, &wanted.defs, &call.properties)?;
    judge_name(state, call, folder, kind, &wanted.name)?;
    Ok(values)
}

// What is found where the call is not refused, or the cause of the refusal.
#[tactic(auto, using(cm_types::proofs::Exits::fails_then, cm_types::proofs::Exits::fails_bind))]
fn judge(
    alloc: Global,
    state: &State,
    user: &Text,
    cost: u64,
    call: &CreateDocument,
    wanted: &Wanted<'_>,
) -> Result<Allowed, Fail>
    ensures { Leaves result
        (refusal_of_document state.now user.now cost call.now wanted.now)
        (allowed_in state.now user.now call.now wanted.now) }
{
    judge_storage(state, cost)?;
    let folder = folder_of(state, user, &call.place)?;
    judge_read(state, user, call.policies.as_slice())?;
    let kind = state.types().find(&wanted.kind).ok_or(Cause::TypeNotFound)?;
    judge_types(state.types(), wanted.secondary.as_slice())?;
    let values = judge_found(alloc, state, user, call, wanted, folder, kind)?;
    Ok(Allowed {
        folder: number_of(folder),
        state: state_of(kind, call),
        values,
    })
}

fn new_document(
    alloc: Global,
    state: &State,
    user: &Text,
    moment: Moment,
    wanted: Wanted<'_>,
    allowed: Allowed,
) -> Result<Object, AllocError>
    requires room { state.now.step + 1 < 2 ^ 64 }
    ensures { IfOk result (λ x. x ≡ new_document state.now user.now moment wanted.entry allowed) }
{
    let number = Oid(state.next_number());
    Ok(Object {
        id: number,
        kind: wanted.kind,
        name: own_name(allowed.state, wanted.name),
        secondary: wanted.secondary,
        values: allowed.values,
        created_by: user.copied(alloc)?,
        created_at: moment,
        modified_by: user.copied(alloc)?,
        modified_at: moment,
        token: state.step() + 1,
        series: Some(number),
    })
}

// The document with its series and its content.
fn new_parts(
    alloc: Global,
    state: &State,
    user: &Text,
    moment: Moment,
    call: &CreateDocument,
    wanted: Wanted<'_>,
    allowed: Allowed,
) -> Result<NewDocument, AllocError>
    requires room { state.now.step + 1 < 2 ^ 64 }
    ensures { IfOk result (λ n. n ≡ new_parts state.now user.now moment call.now wanted.entry allowed) }
{
    let folder = allowed.folder;
    let number = Oid(state.next_number());
    let series = begin(alloc, number, user, &wanted.name, allowed.state)?;
    let content = new_content(alloc, state, &wanted.name, &call.stream)?;
    let object = new_document(alloc, state, user, moment, wanted, allowed)?;
    Ok(NewDocument {
        object,
        series,
        content,
        folder,
    })
}

fn with_new(
    alloc: Global,
    state: &State,
    user: &Text,
    moment: Moment,
    cost: u64,
    call: &CreateDocument,
    new: NewDocument,
) -> Result<State, AllocError>
    requires allowed { refusal_create_document state.now user.now cost call.now ≡ Ok tt }
    requires new { new ≡ parts_made state.now user.now moment call.now }
    ensures { IfOk result (λ s. s ≡ after_create_document state.now user.now moment cost call.now) }
{
    let _step = state.step();
    let aces = new_aces(alloc, user, call.remove.as_slice(), call.add.as_slice())?;
    let policies = policies_in(alloc, state, user, call.policies.as_slice())?;
    let policies = policies.as_slice();
    let draft = document_in(alloc, state, new, aces, policies, cost, moment)?;
    Ok(draft.seal())
}

/// Makes a document, which has the next number. The cost is the weight of the call and the default values that the document takes.
///
/// The answer is the first cause that refuses the call, or the repository after it.
pub fn document_created(
    alloc: Global,
    state: &State,
    user: &Text,
    moment: Moment,
    call: &CreateDocument,
) -> Result<State, Fail>
    ensures created { Leaves result
        (refusal_create_document state.now user.now (cost_create_document state.now call.now) call.now)
        (after_create_document state.now user.now moment (cost_create_document state.now call.now) call.now) }
    ensures there { IfOk result (λ s. object_at s (new_number state.now)
        ≡ Some (parts_made state.now user.now moment call.now).object) }
    ensures well { IfOk result (λ s. IsWellFormed s) }
{
    let _step = state.step();
    let wanted = wanted_of(alloc, state, &call.properties)?;
    let cost = cost_of(state, call, &wanted);
    let allowed = judge(alloc, state, user, cost, call, &wanted)?;
    let new = new_parts(alloc, state, user, moment, call, wanted, allowed)?;
    let made = with_new(alloc, state, user, moment, cost, call, new)?;
    let _made_step = made.step();
    Ok(made)
}

/// Makes a document, as `document_created` does, and shows it as the caller sees it after the step.
pub fn create_document(
    alloc: Global,
    state: &State,
    user: &Text,
    moment: Moment,
    call: &CreateDocument,
) -> Result<(State, ObjectReply), Fail>
    ensures written { Writes result
        (refusal_create_document state.now user.now (cost_create_document state.now call.now) call.now)
        (after_create_document state.now user.now moment (cost_create_document state.now call.now) call.now)
        (acknowledgement_create_document state.now user.now moment (cost_create_document state.now call.now) call.now) }
    ensures well { IfOk result (λ x. IsWellFormed x.0) }
{
    let number = Oid(state.next_number());
    let made = document_created(alloc, state, user, moment, call)?;
    let (next, reply) = with_reply(alloc, made, user, call.succinct, number)?;
    let _next_step = next.step();
    Ok((next, reply))
}
