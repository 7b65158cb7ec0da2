//! createDocumentFromSource (CMIS 1.1, section 2.2.4.2).
ghost use Rattle.std.specs.Prelude.{◌≡◌, ◌+◌, ◌<◌, ◌^◌, Ok, Some, None, IfOk, option_and_then, map};
ghost use Rattle.cm_map.specs.Parts.{pointee};
ghost use Rattle.std.specs.Option.{option_copied};
ghost use Rattle.cm_base.specs.Judged.{Fails, Leaves, Writes};
ghost use Rattle.cm_types.specs.declared.given.PropertyCall.TheVariants as calls;
ghost use Rattle.cm_types.specs.Properties.{judge_properties};
ghost use Rattle.cmis_spec.specs.Values.{values_kept};
ghost use Rattle.cm_see.specs.Addressed.{addressed};
ghost use Rattle.cmis_spec.specs.Access.{read_named};
ghost use Rattle.cmis_spec.specs.Well.{IsWellFormed};
ghost use Rattle.wr_object.specs.CreateDocument.{number_of};
ghost use Rattle.wr_source.specs.Templates.{template_of};
ghost use Rattle.wr_source.specs.CreateDocumentFromSource.{cost_of_source, cost_create_document_from_source, judge_template, judge_found, refusal_of_source, refusal_create_document_from_source, allowed_in, new_document, new_parts, parts_made, after_create_document_from_source, acknowledgement_create_document_from_source};

use crate::rules::{judge_kinds, judge_name, judge_type};
use crate::taking::{with_source, with_unread};
use crate::template::{Template, template_of};
use call_parts::replies::ObjectReply;
use call_parts::versions::CreateDocument;
use cm_base::cause::Cause;
use cm_base::copies::Copies;
use cm_base::fail::Fail;
use cm_base::number::{Moment, Oid};
use cm_base::object::Object;
use cm_base::text::Text;
use cm_base::value::Values;
use cm_rules::check::check_new;
use cm_see::read::read_named;
use cm_series::begin::begin;
use cm_state::state::State;
use cm_types::definition::TypeDef;
use cm_types::given::Givens;
use cm_types::property::PropDef;
use source_parts::weight::weight_of_create_document_from_source;
use source_parts::writes::CreateDocumentFromSource;
use std::alloc::{AllocError, Global};
use wr_object::document_rules::{folder_of, judge_place, number_of, state_of};
use wr_object::making_document::{document_in, new_content, own_name};
use wr_object::new_document::{Allowed, NewDocument};
use wr_rules::entries::new_aces;
use wr_rules::kinds::judge_types;
use wr_rules::made::with_reply;
use wr_rules::policies::{judge_read, policies_in};
use wr_rules::storage::judge_storage;
use wr_rules::wanted::wanted_by;

// The values of the new document, or the first fault of the given properties.
fn judge_values(
    alloc: Global,
    defs: &[&PropDef],
    copied: &Values,
    given: &Givens,
) -> Result<Values, Fail>
    ensures { Leaves result
        (judge_properties calls.Create (map pointee defs.now) copied.now given.now)
        (values_kept calls.Create (map pointee defs.now) copied.now given.now) }
{
    check_new(alloc, defs, copied, given)
}

// All lines of the refusal but those that find something.
#[tactic(auto, using(cm_types::proofs::Exits::fails_then))]
fn judge_found(
    alloc: Global,
    state: &State,
    user: &Text,
    call: &CreateDocument,
    x: &Object,
    t: &Template<'_>,
    folder: Option<&Object>,
    kind: &TypeDef,
) -> Result<Values, Fail>
    ensures { Leaves result
        (judge_found state.now user.now call.now x.now t.now (option_copied folder.entry) kind.now)
        (values_kept calls.Create t.now.defs t.now.copied call.now.properties) }
{
    judge_kinds(state, user, call, x, folder)?;
    judge_type(alloc, state, t, kind)?;
    judge_place(state, call, folder, kind)?;
    let values = judge_values(alloc, &t.defs, &t.copied, &call.properties)?;
    judge_name(state, call, t, folder, kind)?;
    Ok(values)
}

// What is allowed of the source in the folder, or the cause of the refusal.
#[tactic(auto, using(cm_types::proofs::Exits::fails_then, cm_types::proofs::Exits::fails_bind))]
fn judge_template(
    alloc: Global,
    state: &State,
    user: &Text,
    call: &CreateDocument,
    x: &Object,
    t: &Template<'_>,
    folder: Option<&Object>,
) -> Result<Allowed, Fail>
    ensures { Leaves result
        (judge_template state.now user.now call.now x.now t.now (option_copied folder.entry))
        (allowed_in state.now call.now t.now (option_copied folder.entry)) }
{
    judge_read(state, user, call.policies.as_slice())?;
    let kind = state.types().find(&t.kind).ok_or(Cause::TypeNotFound)?;
    judge_types(state.types(), t.secondary.as_slice())?;
    let values = judge_found(alloc, state, user, call, x, t, folder, kind)?;
    Ok(Allowed {
        folder: number_of(folder),
        state: state_of(kind, call),
        values,
    })
}

// What is allowed of this source, or the cause of the refusal.
#[tactic(auto, using(cm_types::proofs::Exits::fails_then, cm_types::proofs::Exits::fails_bind))]
fn judge(
    alloc: Global,
    state: &State,
    user: &Text,
    cost: u64,
    call: &CreateDocument,
    x: &Object,
    t: &Template<'_>,
) -> Result<Allowed, Fail>
    requires template { t.now ≡ template_of state.now x.now call.now }
    ensures { Leaves result
        (refusal_of_source state.now user.now cost call.now (Some x.now))
        (allowed_in state.now call.now t.now (option_and_then (addressed state.now user.now) call.now.place)) }
{
    judge_storage(state, cost)?;
    let folder = folder_of(state, user, &call.place)?;
    let allowed = judge_template(alloc, state, user, call, x, t, folder)?;
    Ok(allowed)
}

// Why a call is refused whose source is not read.
fn unread(state: &State, user: &Text, cost: u64, call: &CreateDocument) -> Fail
    ensures { Fails result (refusal_of_source state.now user.now cost call.now None) }
{
    match judge_storage(state, cost) {
        Err(cause) => Fail::Refused(cause),
        Ok(()) => match folder_of(state, user, &call.place) {
            Err(fail) => fail,
            Ok(_) => Fail::Refused(Cause::NotFound),
        },
    }
}

// The cost where no source is read.
fn cost_unread(
    alloc: Global,
    state: &State,
    call: &CreateDocumentFromSource,
) -> Result<u64, AllocError>
    ensures { IfOk result (λ n. n ≡ cost_of_source state.now call.now None) }
{
    let given = call.document.properties.as_slice();
    let wanted = wanted_by(alloc, state.types(), given)?;
    let weight = weight_of_create_document_from_source(call);
    Ok(with_unread(weight, state, given, &wanted))
}

fn cost_of(state: &State, call: &CreateDocumentFromSource, x: &Object, t: &Template<'_>) -> u64
    requires template { t.now ≡ template_of state.now x.now call.now.document }
    ensures { result ≡ cost_of_source state.now call.now (Some x.now) }
{
    let weight = weight_of_create_document_from_source(call);
    with_source(weight, state, call.document.properties.as_slice(), x, t)
}

fn new_document(
    alloc: Global,
    state: &State,
    user: &Text,
    moment: Moment,
    t: Template<'_>,
    allowed: Allowed,
) -> Result<Object, AllocError>
    requires room { state.now.step + 1 < 2 ^ 64 }
    ensures { IfOk result (λ x. x ≡ new_document state.now user.now moment t.entry allowed) }
{
    let number = Oid(state.next_number());
    Ok(Object {
        id: number,
        kind: t.kind,
        name: own_name(allowed.state, t.name),
        secondary: t.secondary,
        values: allowed.values,
        created_by: user.copied(alloc)?,
        created_at: moment,
        modified_by: user.copied(alloc)?,
        modified_at: moment,
        token: state.step() + 1,
        series: Some(number),
    })
}

// The document with its series and its content.
fn new_parts(
    alloc: Global,
    state: &State,
    user: &Text,
    moment: Moment,
    t: Template<'_>,
    allowed: Allowed,
) -> Result<NewDocument, AllocError>
    requires room { state.now.step + 1 < 2 ^ 64 }
    ensures { IfOk result (λ n. n ≡ new_parts state.now user.now moment t.entry allowed) }
{
    let folder = allowed.folder;
    let number = Oid(state.next_number());
    let series = begin(alloc, number, user, &t.name, allowed.state)?;
    let content = new_content(alloc, state, &t.name, &t.stream)?;
    let object = new_document(alloc, state, user, moment, t, allowed)?;
    Ok(NewDocument {
        object,
        series,
        content,
        folder,
    })
}

fn with_new(
    alloc: Global,
    state: &State,
    user: &Text,
    moment: Moment,
    cost: u64,
    call: &CreateDocumentFromSource,
    new: NewDocument,
) -> Result<State, AllocError>
    requires allowed { refusal_create_document_from_source state.now user.now cost call.now ≡ Ok tt }
    requires new { new ≡ parts_made state.now user.now moment call.now }
    ensures { IfOk result (λ s. s ≡ after_create_document_from_source state.now user.now moment cost call.now) }
{
    let _step = state.step();
    let asked = &call.document;
    let aces = new_aces(alloc, user, asked.remove.as_slice(), asked.add.as_slice())?;
    let policies = policies_in(alloc, state, user, asked.policies.as_slice())?;
    let policies = policies.as_slice();
    let draft = document_in(alloc, state, new, aces, policies, cost, moment)?;
    Ok(draft.seal())
}

// The state with the document that is made of this source, and the document as the caller sees it, or the first cause that refuses the
// call.
fn made_of(
    alloc: Global,
    state: &State,
    user: &Text,
    moment: Moment,
    call: &CreateDocumentFromSource,
    x: &Object,
) -> Result<(State, ObjectReply), Fail>
    requires found { read_named state.now user.now call.now.source ≡ Some x.now }
    ensures written { Writes result
        (refusal_create_document_from_source state.now user.now
        (cost_create_document_from_source state.now user.now call.now) call.now)
        (after_create_document_from_source state.now user.now moment
        (cost_create_document_from_source state.now user.now call.now) call.now)
        (acknowledgement_create_document_from_source state.now user.now moment
        (cost_create_document_from_source state.now user.now call.now) call.now) }
    ensures well { IfOk result (λ x. IsWellFormed x.0) }
{
    let _step = state.step();
    let t = template_of(alloc, state, x, &call.document)?;
    let cost = cost_of(state, call, x, &t);
    let allowed = judge(alloc, state, user, cost, &call.document, x, &t)?;
    let new = new_parts(alloc, state, user, moment, t, allowed)?;
    let made = with_new(alloc, state, user, moment, cost, call, new)?;
    let number = Oid(state.next_number());
    let (next, reply) = with_reply(alloc, made, user, call.document.succinct, number)?;
    let _next_step = next.step();
    Ok((next, reply))
}

/// Makes a document of another. The cost is the weight of the call, and the scalars that the document takes over from its source or from
/// default values; what the caller doesn't read, or is no document, is not copied. The content is shared.
///
/// The answer is the first cause that refuses the call, or the repository after it and the new document as the caller sees it there.
pub fn create_document_from_source(
    alloc: Global,
    state: &State,
    user: &Text,
    moment: Moment,
    call: &CreateDocumentFromSource,
) -> Result<(State, ObjectReply), Fail>
    ensures written { Writes result
        (refusal_create_document_from_source state.now user.now
        (cost_create_document_from_source state.now user.now call.now) call.now)
        (after_create_document_from_source state.now user.now moment
        (cost_create_document_from_source state.now user.now call.now) call.now)
        (acknowledgement_create_document_from_source state.now user.now moment
        (cost_create_document_from_source state.now user.now call.now) call.now) }
    ensures well { IfOk result (λ x. IsWellFormed x.0) }
{
    match read_named(state, user, &call.source) {
        Some(x) => made_of(alloc, state, user, moment, call, x),
        None => {
            let cost = cost_unread(alloc, state, call)?;
            Err(unread(state, user, cost, &call.document))
        }
    }
}
