//! updateProperties (CMIS 1.1, section 2.2.4.13).
ghost use Rattle.std.specs.Prelude.{◌≡◌, ◌&&◌, not, Ok, Some, IfOk, map};
ghost use Rattle.cm_map.specs.Parts.{pointee};
ghost use Rattle.cm_base.specs.Judged.{Meets, Leaves, Writes, first_cause};
ghost use Rattle.cm_types.specs.declared.given.PropertyCall.TheVariants as calls;
ghost use Rattle.cm_types.specs.Properties.{judge_properties};
ghost use Rattle.cmis_spec.specs.Values.{values_kept};
ghost use Rattle.cmis_spec.specs.Repository.{same, root, object_at};
ghost use Rattle.cmis_spec.specs.Changes.{stepped};
ghost use Rattle.cmis_spec.specs.Documents.{is_working_copy};
ghost use Rattle.cmis_spec.specs.Retention.{judge_retention};
ghost use Rattle.cmis_spec.specs.Well.{IsWellFormed};
ghost use Rattle.cm_see.specs.Addressed.{addressed};
ghost use Rattle.wr_rules.specs.Rules.{judge_storage, unknown_type, has_other_secondary};
ghost use Rattle.wr_rules.specs.Documents.{form_slots, name_after};
ghost use Rattle.wr_rules.specs.Found.{FindsWith};
ghost use Rattle.wr_change.specs.Update.{cost_update, secondary_named, secondary_updated, props_updated, gives_name, takes_name, judge_new_name, judge_allowed, judge_update, refusal_one, refusal_update, values_updated, changed_in, object_updated, after_update, acknowledgement_update};
ghost use Rattle.wr_change.specs.UpdateParts.{MayChange};

use crate::change::{begun, changed_in};
use crate::secondary::{secondary_named, secondary_updated};
use call_parts::changes::UpdateProperties;
use call_parts::replies::ObjectReply;
use call_parts::weight::weight_of_update;
use cm_base::access::Level;
use cm_base::cause::Cause;
use cm_base::fail::Fail;
use cm_base::name::name_ok;
use cm_base::number::{Moment, Oid};
use cm_base::object::Object;
use cm_base::text::Text;
use cm_base::value::Values;
use cm_rules::check::check_update;
use cm_see::address::addressed;
use cm_see::level::lacks;
use cm_state::look::entry_of;
use cm_state::open::ROOT;
use cm_state::state::State;
use cm_types::given::Givens;
use cm_types::property::PropDef;
use std::alloc::{AllocError, Global};
use wr_rules::kinds::{has_other_secondary, judge_types};
use wr_rules::made::with_changed;
use wr_rules::properties::is_given;
use wr_rules::retention::judge_retention;
use wr_rules::storage::judge_storage;
use wr_rules::token::judge_token;
use wr_rules::versions::{is_working_copy, judge_changeable};
use wr_version::after::{form_slots, is_taken_anywhere, name_after};

fn judge_named_types(alloc: Global, state: &State, call: &UpdateProperties) -> Result<(), Fail>
    ensures { Meets (λ x. x) result (first_cause (unknown_type state.now.types) (secondary_named call.now)) }
{
    let named = secondary_named(alloc, call)?;
    judge_types(state.types(), named.as_slice())?;
    Ok(())
}

// One of the secondary types that are named is none.
fn names_other_type(
    alloc: Global,
    state: &State,
    call: &UpdateProperties,
) -> Result<bool, AllocError>
    ensures { IfOk result (λ b. b ≡ has_other_secondary state.now.types (secondary_named call.now)) }
{
    let named = secondary_named(alloc, call)?;
    has_other_secondary(alloc, state.types(), named.as_slice())
}

// A name is given for the root.
fn names_root(call: &UpdateProperties, x: &Object) -> bool
    ensures { result ≡ (same x.now.id root && gives_name call.now) }
{
    x.id == ROOT && is_given(call.properties.as_slice(), "cmis:name")
}

// The caller may change the object, and knows it as it is.
#[tactic(auto, using(cm_types::proofs::Exits::fails_then))]
fn judge_allowed(
    alloc: Global,
    state: &State,
    user: &Text,
    call: &UpdateProperties,
    x: &Object,
) -> Result<(), Fail>
    ensures { Meets (λ x. x) result (judge_allowed state.now user.now call.now x.now) }
{
    if lacks(state, user, Level::Write, x) {
        return Err(Fail::Refused(Cause::Denied));
    }
    judge_token(alloc, x, &call.token)?;
    if names_root(call, x) {
        return Err(Fail::Refused(Cause::RootFixed));
    }
    judge_changeable(state, x)?;
    let is_other = names_other_type(alloc, state, call)?;
    if is_other {
        return Err(Fail::Refused(Cause::TypeKind));
    }
    Ok(())
}

// The definitions of the properties that the object has after the call.
fn props_updated<'a>(
    alloc: Global,
    state: &'a State,
    call: &UpdateProperties,
    x: &Object,
) -> Result<Vec<&'a PropDef>, AllocError>
    ensures { IfOk result (λ defs. map pointee defs.items ≡ props_updated state.now call.now x.now) }
{
    let secondary = secondary_updated(alloc, call, x)?;
    let defs = state
        .types()
        .props_of(alloc, &x.kind, secondary.as_slice())?;
    Ok(defs)
}

// The values that are kept by these definitions, or the first fault of the given properties.
fn judge_by(
    alloc: Global,
    defs: &[&PropDef],
    old: &Values,
    given: &Givens,
    working: bool,
) -> Result<Values, Fail>
    ensures { Leaves result
        (judge_properties (calls.Update working) (map pointee defs.now) old.now given.now)
        (values_kept (calls.Update working) (map pointee defs.now) old.now given.now) }
{
    check_update(alloc, defs, old, given, working)
}

// The values that the object has after the call, or the first fault of the given properties.
#[tactic(auto, using(crate::proofs::Defined::leaves_by))]
fn judge_values(
    alloc: Global,
    state: &State,
    call: &UpdateProperties,
    x: &Object,
) -> Result<Values, Fail>
    ensures { Leaves result
        (judge_properties (calls.Update (is_working_copy state.now x.now))
        (props_updated state.now call.now x.now) (form_slots state.now x.now) call.now.properties)
        (values_updated state.now call.now x.now) }
{
    let defs = props_updated(alloc, state, call, x)?;
    let old = form_slots(alloc, state, x)?;
    let working = is_working_copy(state, x);
    judge_by(alloc, &defs, &old, &call.properties, working)
}

// Another child has the name in a folder of the object.
fn takes_name(state: &State, x: &Object, name: &Text) -> bool
    ensures { result ≡ takes_name state.now x.now name.now }
{
    !is_working_copy(state, x) && is_taken_anywhere(state, entry_of(x), name)
}

// The name that the object has after the call is one, and no other child of its folders has it.
fn judge_new_name(
    alloc: Global,
    state: &State,
    call: &UpdateProperties,
    x: &Object,
) -> Result<(), Fail>
    ensures { Meets (λ x. x) result (judge_new_name state.now call.now x.now) }
{
    let name = name_after(alloc, state, x, call.properties.as_slice())?;
    if !name_ok(name.bytes()) {
        return Err(Fail::Refused(Cause::BadName));
    }
    if takes_name(state, x, &name) {
        return Err(Fail::Refused(Cause::NameTaken));
    }
    Ok(())
}

// The retention of the object, if it is under one at the moment, is neither taken away nor shortened.
fn judge_kept(
    alloc: Global,
    state: &State,
    moment: Moment,
    call: &UpdateProperties,
    x: &Object,
    values: &Values,
) -> Result<(), Fail>
    ensures { Meets (λ x. x) result
        (judge_retention state.now moment (secondary_updated call.now x.now) values.now x.now) }
{
    let secondary = secondary_updated(alloc, call, x)?;
    judge_retention(state, moment, &secondary, values, x)?;
    Ok(())
}

// The values that the object then has, or the first cause for which the call may not change it.
#[tactic(auto, using(cm_types::proofs::Exits::fails_then))]
fn judge_update(
    alloc: Global,
    state: &State,
    user: &Text,
    moment: Moment,
    call: &UpdateProperties,
    x: &Object,
) -> Result<Values, Fail>
    ensures { Leaves result
        (judge_update state.now user.now moment call.now x.now)
        (values_updated state.now call.now x.now) }
{
    judge_named_types(alloc, state, call)?;
    judge_allowed(alloc, state, user, call, x)?;
    let values = judge_values(alloc, state, call, x)?;
    judge_new_name(alloc, state, call, x)?;
    judge_kept(alloc, state, moment, call, x, &values)?;
    Ok(values)
}

#[tactic(auto, using(cm_types::proofs::Exits::fails_bind))]
fn judge_found<'a>(
    alloc: Global,
    state: &'a State,
    user: &Text,
    moment: Moment,
    call: &UpdateProperties,
) -> Result<(&'a Object, Values), Fail>
    ensures { FindsWith (λ x. x.now) result
        (refusal_one state.now user.now moment call.now)
        (addressed state.now user.now call.now.place)
        (values_updated state.now call.now) }
{
    let x = addressed(state, user, &call.place).ok_or(Cause::NotFound)?;
    let values = judge_update(alloc, state, user, moment, call, x)?;
    Ok((x, values))
}

/// The object that is addressed and the values that it then has, or the cause for which the call may not change it, the limits of
/// the repository aside.
pub fn judge_one<'a>(
    alloc: Global,
    state: &'a State,
    user: &Text,
    moment: Moment,
    call: &UpdateProperties,
) -> Result<(&'a Object, Values), Fail>
    ensures judged { FindsWith (λ x. x.now) result
        (refusal_one state.now user.now moment call.now)
        (addressed state.now user.now call.now.place)
        (values_updated state.now call.now) }
    ensures right { IfOk result (λ a. MayChange state.now call.now a.0.now) }
{
    let _step = state.step();
    let (x, values) = judge_found(alloc, state, user, moment, call)?;
    Ok((x, values))
}

#[tactic(auto, using(cm_types::proofs::Exits::fails_then))]
fn judge<'a>(
    alloc: Global,
    state: &'a State,
    user: &Text,
    moment: Moment,
    call: &UpdateProperties,
) -> Result<(&'a Object, Values), Fail>
    ensures judged { FindsWith (λ x. x.now) result
        (refusal_update state.now user.now moment (cost_update call.now) call.now)
        (addressed state.now user.now call.now.place)
        (values_updated state.now call.now) }
    ensures right { IfOk result (λ a. MayChange state.now call.now a.0.now) }
{
    judge_storage(state, weight_of_update(call))?;
    let (x, values) = judge_one(alloc, state, user, moment, call)?;
    Ok((x, values))
}

// The state one step further in which the object that is found is changed as the call asks.
fn with_update(
    alloc: Global,
    state: &State,
    user: &Text,
    moment: Moment,
    call: &UpdateProperties,
    found: (&Object, Values),
) -> Result<State, AllocError>
    requires allowed { judge_storage state.now (cost_update call.now) ≡ Ok tt }
    requires right { MayChange state.now call.now found.0.now }
    requires values { found.1 ≡ values_updated state.now call.now found.0.now }
    ensures { IfOk result (λ s. s ≡
        changed_in (stepped state.now (cost_update call.now)) user.now moment call.now found.entry.0.now) }
{
    let begun = begun(alloc, state, weight_of_update(call))?;
    let made = changed_in(alloc, &begun, user, moment, call, found)?;
    Ok(made)
}

/// Changes the properties of an object, a working copy's or the latest version's among them. The cost is the weight of the call.
///
/// The answer is the first cause that refuses the call, or the repository after it and the number of the object.
pub fn properties_updated(
    alloc: Global,
    state: &State,
    user: &Text,
    moment: Moment,
    call: &UpdateProperties,
) -> Result<(State, Oid), Fail>
    ensures updated { Writes result
        (refusal_update state.now user.now moment (cost_update call.now) call.now)
        (after_update state.now user.now moment (cost_update call.now) call.now)
        (object_updated state.now user.now moment (cost_update call.now) call.now).id }
    ensures there { IfOk result (λ a. object_at a.0 a.1
        ≡ Some (object_updated state.now user.now moment (cost_update call.now) call.now)) }
    ensures well { IfOk result (λ a. IsWellFormed a.0) }
{
    let _step = state.step();
    let (x, values) = judge(alloc, state, user, moment, call)?;
    let made = with_update(alloc, state, user, moment, call, (x, values))?;
    let _made_step = made.step();
    Ok((made, x.id))
}

/// Changes the properties of an object, as `properties_updated` does, and shows it as the caller sees it after the step.
pub fn update(
    alloc: Global,
    state: &State,
    user: &Text,
    moment: Moment,
    call: &UpdateProperties,
) -> Result<(State, ObjectReply), Fail>
    ensures written { Writes result
        (refusal_update state.now user.now moment (cost_update call.now) call.now)
        (after_update state.now user.now moment (cost_update call.now) call.now)
        (acknowledgement_update state.now user.now moment (cost_update call.now) call.now) }
    ensures well { IfOk result (λ x. IsWellFormed x.0) }
{
    let (made, number) = properties_updated(alloc, state, user, moment, call)?;
    let (next, reply) = with_changed(alloc, made, user, call.succinct, number)?;
    let _next_step = next.step();
    Ok((next, reply))
}
