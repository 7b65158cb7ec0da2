//! createRelationship (CMIS 1.1, section 2.2.4.4).
ghost use Rattle.std.specs.Prelude.{◌≡◌, [], IfOk};
ghost use Rattle.std.specs.Option.{option_copied};
ghost use Rattle.cm_base.specs.Judged.{Leaves, Writes};
ghost use Rattle.cm_types.specs.declared.given.PropertyCall.TheVariants as calls;
ghost use Rattle.cmis_spec.specs.Values.{values_kept};
ghost use Rattle.cmis_spec.specs.Well.{IsWellFormed};
ghost use Rattle.wr_rules.specs.Wanted.{wanted_in};
ghost use Rattle.wr_relationship.specs.CreateRelationship.{with_name, cost_create_relationship, judge_relationship, refusal_of_relationship, refusal_create_relationship, after_create_relationship, acknowledgement_create_relationship};

use crate::ends::{end_at, judge_ends, judge_link};
use crate::naming::{first_given, with_plain_name};
use call_parts::replies::ObjectReply;
use cm_base::cause::Cause;
use cm_base::fail::Fail;
use cm_base::number::Moment;
use cm_base::object::Object;
use cm_base::text::Text;
use cm_base::value::Values;
use cm_state::state::State;
use cm_types::definition::{BaseType, TypeDef};
use create_parts::weight::weight_of_create_relationship;
use create_parts::writes::CreateRelationship;
use std::alloc::Global;
use wr_create::making::{made_with_reply, with_request};
use wr_create::rules::{cost_of_making, judge_addressed, judge_request, judge_type};
use wr_object::asked::wanted_of;
use wr_object::making::new_object;
use wr_rules::kinds::judge_types;
use wr_rules::policies::judge_read;
use wr_rules::storage::judge_storage;
use wr_rules::wanted::Wanted;

// The values of the relationship, or the first of the causes that come once its ends and its type are found.
#[tactic(auto, using(cm_types::proofs::Exits::fails_then))]
fn judge_relationship(
    alloc: Global,
    state: &State,
    call: &CreateRelationship,
    wanted: &Wanted<'_>,
    source: Option<&Object>,
    target: Option<&Object>,
    kind: &TypeDef,
) -> Result<Values, Fail>
    ensures { Leaves result
        (judge_relationship state.now call.now wanted.now
        (option_copied source.entry) (option_copied target.entry) kind.now)
        (values_kept calls.Create wanted.now.defs [] call.now.object.properties) }
{
    judge_type(alloc, state.types(), BaseType::Relationship, wanted, kind)?;
    judge_link(state.types(), call, kind, source, target)?;
    let values = judge_request(alloc, wanted, &call.object, &call.object.properties)?;
    Ok(values)
}

// The values of the relationship, or the cause of the refusal.
#[tactic(auto, using(cm_types::proofs::Exits::fails_then, cm_types::proofs::Exits::fails_bind))]
fn judge_wanted(
    alloc: Global,
    state: &State,
    user: &Text,
    cost: u64,
    call: &CreateRelationship,
    wanted: &Wanted<'_>,
) -> Result<Values, Fail>
    ensures { Leaves result
        (refusal_of_relationship state.now user.now cost call.now wanted.now)
        (values_kept calls.Create wanted.now.defs [] call.now.object.properties) }
{
    let given = call.object.properties.as_slice();
    judge_storage(state, cost)?;
    judge_addressed(state, user, &call.place)?;
    let source = end_at(state, user, given, "cmis:sourceId")?;
    let target = end_at(state, user, given, "cmis:targetId")?;
    judge_read(state, user, call.object.policies.as_slice())?;
    let kind = state.types().find(&wanted.kind).ok_or(Cause::TypeNotFound)?;
    judge_types(state.types(), wanted.secondary.as_slice())?;
    judge_ends(state, user, call, source, target)?;
    let values = judge_relationship(alloc, state, call, wanted, source, target, kind)?;
    Ok(values)
}

fn cost_of(
    state: &State,
    call: &CreateRelationship,
    named: &CreateRelationship,
    wanted: &Wanted<'_>,
) -> u64
    requires named { named.now ≡ with_name call.now }
    requires wanted { wanted.now ≡ wanted_in state.now.types named.now.object.properties }
    ensures { result ≡ cost_create_relationship state.now call.now }
{
    cost_of_making(
        state,
        weight_of_create_relationship(call),
        wanted,
        &named.object.properties,
    )
}

// Makes the relationship that the call asks for, by the call with a name.
fn create_named(
    alloc: Global,
    state: &State,
    user: &Text,
    moment: Moment,
    call: &CreateRelationship,
    named: &CreateRelationship,
) -> Result<(State, ObjectReply), Fail>
    requires named { named.now ≡ with_name call.now }
    ensures written { Writes result
        (refusal_create_relationship state.now user.now (cost_create_relationship state.now call.now) call.now)
        (after_create_relationship state.now user.now moment (cost_create_relationship state.now call.now) call.now)
        (acknowledgement_create_relationship state.now user.now moment
        (cost_create_relationship state.now call.now) call.now) }
    ensures well { IfOk result (λ x. IsWellFormed x.0) }
{
    let _step = state.step();
    let wanted = wanted_of(alloc, state, &named.object.properties)?;
    let cost = cost_of(state, call, named, &wanted);
    let values = judge_wanted(alloc, state, user, cost, named, &wanted)?;
    let object = new_object(alloc, state, user, moment, wanted, values)?;
    let new = with_request(alloc, state, user, object, &named.object, None)?;
    let (next, reply) = made_with_reply(alloc, state, user, new, cost, call.succinct)?;
    let _next_step = next.step();
    Ok((next, reply))
}

/// Makes a relationship between two objects that the caller reads, under the name `relationship` where none is given. The cost is the
/// weight of the call and the default values that the relationship takes.
///
/// The answer is the first cause that refuses the call, or the repository after it and the new relationship as the caller sees it
/// there.
pub fn create_relationship(
    alloc: Global,
    state: &State,
    user: &Text,
    moment: Moment,
    call: &CreateRelationship,
) -> Result<(State, ObjectReply), Fail>
    ensures written { Writes result
        (refusal_create_relationship state.now user.now (cost_create_relationship state.now call.now) call.now)
        (after_create_relationship state.now user.now moment (cost_create_relationship state.now call.now) call.now)
        (acknowledgement_create_relationship state.now user.now moment
        (cost_create_relationship state.now call.now) call.now) }
    ensures well { IfOk result (λ x. IsWellFormed x.0) }
{
    match first_given(call.object.properties.as_slice(), "cmis:name") {
        Some(_) => {
            let made = create_named(alloc, state, user, moment, call, call)?;
            Ok(made)
        }
        None => {
            let named = with_plain_name(alloc, call)?;
            let made = create_named(alloc, state, user, moment, call, &named)?;
            Ok(made)
        }
    }
}
