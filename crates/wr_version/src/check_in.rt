//! checkIn (CMIS 1.1, section 2.2.7.3).
ghost use Rattle.std.specs.Prelude.{◌≡◌, ◌+◌, ◌<◌, ◌^◌, None, Some, Ok, IfOk, is_some, true, map};
ghost use Rattle.cm_map.specs.Parts.{pointee};
ghost use Rattle.cm_base.specs.Judged.{Meets, Leaves, Writes, first_cause};
ghost use Rattle.cm_base.specs.declared.series.Series.{Series};
ghost use Rattle.cm_types.specs.declared.given.PropertyCall.TheVariants as calls;
ghost use Rattle.cm_types.specs.Properties.{judge_properties};
ghost use Rattle.cm_see.specs.Addressed.{addressed};
ghost use Rattle.cmis_spec.specs.Repository.{series_of};
ghost use Rattle.cmis_spec.specs.Values.{values_kept};
ghost use Rattle.cmis_spec.specs.Documents.{is_copy_of, is_working_copy, last_label, next_label, checked_in, with_comment};
ghost use Rattle.cmis_spec.specs.Well.{IsWellFormed};
ghost use Rattle.wr_rules.specs.Rules.{secondary_in, unknown_type, has_other_secondary};
ghost use Rattle.wr_rules.specs.Documents.{form_slots, name_after, secondary_after};
ghost use Rattle.wr_rules.specs.Found.{FindsWith};
ghost use Rattle.wr_version.specs.CheckIn.{cost_check_in, props_after, judge_copy, judge_new_name, judge_given, judge_found, refusal_check_in, values_after, new_version, given_content, after_check_in, acknowledgement_check_in};

use crate::after::{form_slots, is_taken_anywhere, kept_with_comment, name_after, secondary_after};
use crate::joining::joined_in;
use call_parts::replies::ObjectReply;
use call_parts::versions::CheckIn;
use call_parts::weight::weight_of_check_in;
use cm_base::access::Level;
use cm_base::cause::Cause;
use cm_base::content::Content;
use cm_base::copies::Copies;
use cm_base::fail::Fail;
use cm_base::name::name_ok;
use cm_base::number::{Moment, Oid};
use cm_base::object::Object;
use cm_base::series::Series;
use cm_base::text::Text;
use cm_base::value::Values;
use cm_rules::check::check_checked_in;
use cm_see::address::addressed;
use cm_see::level::lacks;
use cm_series::label::label_after;
use cm_series::working;
use cm_state::look::entry_of;
use cm_state::state::State;
use cm_types::definition::{BaseType, TypeDef};
use cm_types::given::Givens;
use cm_types::property::PropDef;
use std::alloc::{AllocError, Global};
use wr_rules::content::{content_of_stream, judge_content};
use wr_rules::kinds::{has_other_secondary, judge_types};
use wr_rules::made::with_reply;
use wr_rules::properties::secondary_in;
use wr_rules::storage::judge_storage;

fn is_copy_of(series: &Series, n: Oid) -> bool
    ensures { result ≡ is_copy_of series.now n }
{
    match &series.working {
        Some(working) => working.copy == n,
        None => false,
    }
}

fn is_working_copy(state: &State, x: &Object) -> bool
    ensures { result ≡ is_working_copy state.now x.now }
{
    match state.series_of(x) {
        Some(series) => is_copy_of(series, x.id),
        None => false,
    }
}

// The definitions of the properties that the document has after the call.
fn props_after<'a>(
    alloc: Global,
    state: &'a State,
    call: &CheckIn,
    x: &Object,
) -> Result<Vec<&'a PropDef>, AllocError>
    ensures { IfOk result (λ defs. map pointee defs.items ≡ props_after state.now call.now x.now) }
{
    let secondary = secondary_after(alloc, x, call.properties.as_slice())?;
    let defs = state
        .types()
        .props_of(alloc, &x.kind, secondary.as_slice())?;
    Ok(defs)
}

// The values that are kept by these definitions, or the first fault of the given properties.
fn judge_by(alloc: Global, defs: &[&PropDef], old: &Values, given: &Givens) -> Result<Values, Fail>
    ensures { Leaves result
        (judge_properties calls.CheckIn (map pointee defs.now) old.now given.now)
        (values_kept calls.CheckIn (map pointee defs.now) old.now given.now) }
{
    check_checked_in(alloc, defs, old, given)
}

// The values that the document has after the call, or the first fault of the given properties.
#[tactic(auto, using(crate::proofs::Defined::leaves_by))]
fn judge_values(alloc: Global, state: &State, call: &CheckIn, x: &Object) -> Result<Values, Fail>
    ensures { Leaves result
        (judge_properties calls.CheckIn
        (props_after state.now call.now x.now) (form_slots state.now x.now) call.now.properties)
        (values_after state.now call.now x.now) }
{
    let defs = props_after(alloc, state, call, x)?;
    let old = form_slots(alloc, state, x)?;
    judge_by(alloc, &defs, &old, &call.properties)
}

// The name is one, and no other child of a folder of the document has it.
fn judge_new_name(alloc: Global, state: &State, call: &CheckIn, x: &Object) -> Result<(), Fail>
    ensures { Meets (λ x. x) result (judge_new_name state.now call.now x.now) }
{
    let name = name_after(alloc, state, x, call.properties.as_slice())?;
    if !name_ok(name.bytes()) {
        return Err(Fail::Refused(Cause::BadName));
    }
    if is_taken_anywhere(state, entry_of(x), &name) {
        return Err(Fail::Refused(Cause::NameTaken));
    }
    Ok(())
}

#[tactic(auto, using(cm_types::proofs::Exits::fails_then))]
fn judge_given(
    alloc: Global,
    state: &State,
    call: &CheckIn,
    x: &Object,
    kind: &TypeDef,
) -> Result<Values, Fail>
    ensures { Leaves result
        (judge_given state.now call.now x.now kind.now)
        (values_after state.now call.now x.now) }
{
    let values = judge_values(alloc, state, call, x)?;
    judge_content(kind, &call.stream, state.content(x.id))?;
    judge_new_name(alloc, state, call, x)?;
    Ok(values)
}

// One of the secondary types that are given is none.
fn gives_other_type(alloc: Global, state: &State, call: &CheckIn) -> Result<bool, AllocError>
    ensures { IfOk result (λ b. b ≡ has_other_secondary state.now.types (secondary_in call.now.properties)) }
{
    let secondary = secondary_in(alloc, call.properties.as_slice())?;
    has_other_secondary(alloc, state.types(), secondary.as_slice())
}

// The caller may check the object in, and the secondary types that are given are such.
fn judge_copy(
    alloc: Global,
    state: &State,
    user: &Text,
    call: &CheckIn,
    x: &Object,
) -> Result<(), Fail>
    ensures { Meets (λ x. x) result (judge_copy state.now user.now call.now x.now) }
{
    if lacks(state, user, Level::Write, x) {
        return Err(Fail::Refused(Cause::Denied));
    }
    if !state.is_a(BaseType::Document, x) {
        return Err(Fail::Refused(Cause::WrongKind));
    }
    if !is_working_copy(state, x) {
        return Err(Fail::Refused(Cause::NotWorking));
    }
    let is_other = gives_other_type(alloc, state, call)?;
    if is_other {
        return Err(Fail::Refused(Cause::TypeKind));
    }
    Ok(())
}

fn judge_given_types(alloc: Global, state: &State, call: &CheckIn) -> Result<(), Fail>
    ensures { Meets (λ x. x) result (first_cause (unknown_type state.now.types) (secondary_in call.now.properties)) }
{
    let secondary = secondary_in(alloc, call.properties.as_slice())?;
    judge_types(state.types(), secondary.as_slice())?;
    Ok(())
}

#[tactic(auto, using(cm_types::proofs::Exits::fails_then, cm_types::proofs::Exits::fails_bind))]
fn judge_found(
    alloc: Global,
    state: &State,
    user: &Text,
    call: &CheckIn,
    x: &Object,
) -> Result<Values, Fail>
    ensures { Leaves result
        (judge_found state.now user.now call.now x.now)
        (values_after state.now call.now x.now) }
{
    let kind = state.type_named(&x.kind).ok_or(Cause::TypeNotFound)?;
    judge_given_types(alloc, state, call)?;
    judge_copy(alloc, state, user, call, x)?;
    judge_given(alloc, state, call, x, kind)
}

// The working copy that is addressed and the values that it then has, or the cause of the refusal.
#[tactic(auto, using(cm_types::proofs::Exits::fails_then, cm_types::proofs::Exits::fails_bind))]
fn judge<'a>(
    alloc: Global,
    state: &'a State,
    user: &Text,
    call: &CheckIn,
) -> Result<(&'a Object, Values), Fail>
    ensures { FindsWith (λ x. x.now) result
        (refusal_check_in state.now user.now (cost_check_in call.now) call.now)
        (addressed state.now user.now call.now.place)
        (values_after state.now call.now) }
{
    judge_storage(state, weight_of_check_in(call))?;
    let x = addressed(state, user, &call.place).ok_or(Cause::NotFound)?;
    let values = judge_found(alloc, state, user, call, x)?;
    Ok((x, values))
}

// The version that the working copy becomes, but for who changed it. Its name is that of its series.
fn version_of(
    alloc: Global,
    call: &CheckIn,
    x: &Object,
    values: Values,
) -> Result<Object, AllocError>
    ensures { IfOk result (λ v. v ≡ record x.now {
      name = None;
      secondary = secondary_after x.now call.now.properties;
      values = with_comment values call.now.comment;
    }) }
{
    let values = kept_with_comment(alloc, values, &call.comment)?;
    let secondary = secondary_after(alloc, x, call.properties.as_slice())?;
    let old = x.copied(alloc)?;
    Ok(Object {
        name: None,
        secondary,
        values,
        ..old
    })
}

// The object as the caller changed it in the next step.
fn changed_by(
    alloc: Global,
    state: &State,
    user: &Text,
    moment: Moment,
    object: Object,
) -> Result<Object, AllocError>
    requires room { state.now.step + 1 < 2 ^ 64 }
    ensures { IfOk result (λ x. x
        ≡ record object { modified_by = user.now; modified_at = moment; token = state.now.step + 1 }) }
{
    let modified_by = user.copied(alloc)?;
    Ok(Object {
        modified_by,
        modified_at: moment,
        token: state.step() + 1,
        ..object
    })
}

// The content that the call gives, if it gives one. Its bytes are shared.
fn given_content(
    alloc: Global,
    state: &State,
    call: &CheckIn,
    x: &Object,
) -> Result<Option<Content>, AllocError>
    requires room { state.now.step + 1 < 2 ^ 64 }
    ensures { IfOk result (λ c. c ≡ given_content state.now call.now x.now) }
{
    match &call.stream {
        Some(stream) => {
            let name = name_after(alloc, state, x, call.properties.as_slice())?;
            let content = content_of_stream(alloc, x.id, &name, state.step() + 1, stream)?;
            Ok(Some(content))
        }
        None => Ok(None),
    }
}

// The series of the working copy, with it as its latest version.
fn series_after(
    alloc: Global,
    state: &State,
    call: &CheckIn,
    x: &Object,
) -> Result<Series, AllocError>
    requires there { is_some (series_of state.now x.now) ≡ true }
    requires room { state.now.step + 1 < 2 ^ 64 }
    ensures { IfOk result (λ s. (old : Series) → series_of state.now x.now ≡ Some old
        → s ≡ checked_in x.now.id (next_label call.now.major (last_label old))
        (name_after state.now x.now call.now.properties) old) }
{
    let _step = state.step();
    let series = state.series_of(x).unwrap();
    let label = label_after(series, call.major);
    let name = name_after(alloc, state, x, call.properties.as_slice())?;
    working::check_in(alloc, series, x.id, label, name)
}

// The state in which this version stands in place of the working copy that the call addresses.
fn with_version(
    alloc: Global,
    state: &State,
    user: &Text,
    call: &CheckIn,
    x: &Object,
    version: Object,
) -> Result<State, AllocError>
    requires allowed { refusal_check_in state.now user.now (cost_check_in call.now) call.now ≡ Ok tt }
    requires found { addressed state.now user.now call.now.place ≡ Some x.now }
    requires version { version ≡ new_version state.now user.now version.modified_at call.now x.now }
    ensures { IfOk result (λ s. s
        ≡ after_check_in state.now user.now version.modified_at (cost_check_in call.now) call.now) }
{
    let _step = state.step();
    let series = series_after(alloc, state, call, x)?;
    let content = given_content(alloc, state, call, x)?;
    let cost = weight_of_check_in(call);
    let draft = joined_in(alloc, state, version, series, content, cost)?;
    Ok(draft.seal())
}

/// Checks a working copy in. The cost is the weight of the call.
///
/// The answer is the first cause that refuses the call, or the repository after it and the new version as the caller sees it there.
pub fn check_in(
    alloc: Global,
    state: &State,
    user: &Text,
    moment: Moment,
    call: &CheckIn,
) -> Result<(State, ObjectReply), Fail>
    ensures written { Writes result
        (refusal_check_in state.now user.now (cost_check_in call.now) call.now)
        (after_check_in state.now user.now moment (cost_check_in call.now) call.now)
        (acknowledgement_check_in state.now user.now moment (cost_check_in call.now) call.now) }
    ensures well { IfOk result (λ x. IsWellFormed x.0) }
{
    let _step = state.step();
    let (x, values) = judge(alloc, state, user, call)?;
    let kept = version_of(alloc, call, x, values)?;
    let version = changed_by(alloc, state, user, moment, kept)?;
    let made = with_version(alloc, state, user, call, x, version)?;
    let (next, reply) = with_reply(alloc, made, user, call.succinct, x.id)?;
    let _next_step = next.step();
    Ok((next, reply))
}
