//! The objects at the ends of a new relationship.
ghost use Rattle.std.specs.Prelude.{◌≡◌, ◌&&◌, ◌||◌, not, false, nat_lt, length, unwrap_or, option_map, IfOk};
ghost use Rattle.std.specs.Option.{option_copied};
ghost use Rattle.cm_base.specs.Judged.{Meets};
ghost use Rattle.cm_types.specs.Types.{is_below_any};
ghost use Rattle.wr_relationship.specs.CreateRelationship.{first_given, end_at, is_relationship, bars_end, judge_ends, judge_link};

use crate::naming::first_given;
use cm_base::cause::Cause;
use cm_base::fail::Fail;
use cm_base::object::Object;
use cm_base::text::Text;
use cm_see::read::read_named;
use cm_state::state::State;
use cm_type_list::types::Types;
use cm_types::definition::{BaseType, TypeDef};
use cm_types::given::Given;
use create_parts::writes::CreateRelationship;
use wr_create::rules::{is_anonymous, is_uncontrollable};
use wr_rules::policies::has_other_policy;

fn found_at<'a>(
    state: &'a State,
    user: &Text,
    id: Option<&Text>,
) -> Result<Option<&'a Object>, Fail>
    ensures { Meets (λ x. option_copied x) result (end_at state.now user.now (option_copied id.entry)) }
{
    match id {
        Some(id) => match read_named(state, user, id) {
            Some(x) => Ok(Some(x)),
            None => Err(Fail::Refused(Cause::NotFound)),
        },
        None => Ok(None),
    }
}

/// The object that is given for an end, if one is. Takes no memory.
pub(crate) fn end_at<'a>(
    state: &'a State,
    user: &Text,
    given: &[Given],
    property: &str,
) -> Result<Option<&'a Object>, Fail>
    ensures { Meets (λ x. option_copied x) result (end_at state.now user.now (first_given given.now property.now)) }
{
    let id = first_given(given, property);
    found_at(state, user, id)
}

fn is_relationship(state: &State, end: Option<&Object>) -> bool
    ensures { result ≡ is_relationship state.now (option_copied end.entry) }
{
    match end {
        Some(x) => state.is_a(BaseType::Relationship, x),
        None => false,
    }
}

fn one_is_relationship(state: &State, source: Option<&Object>, target: Option<&Object>) -> bool
    ensures { result ≡ (is_relationship state.now (option_copied source.entry)
        || is_relationship state.now (option_copied target.entry)) }
{
    is_relationship(state, source) || is_relationship(state, target)
}

/// The caller may make relationships, and between these objects one may stand. Takes no memory.
pub(crate) fn judge_ends(
    state: &State,
    user: &Text,
    call: &CreateRelationship,
    source: Option<&Object>,
    target: Option<&Object>,
) -> Result<(), Cause>
    ensures { result
        ≡ judge_ends state.now user.now call.now (option_copied source.entry) (option_copied target.entry) }
{
    if is_anonymous(user) {
        return Err(Cause::Denied);
    }
    if has_other_policy(state, user, call.object.policies.as_slice()) {
        return Err(Cause::WrongKind);
    }
    if one_is_relationship(state, source, target) {
        return Err(Cause::EndKind);
    }
    Ok(())
}

fn is_beside(types: &Types, allowed: &[Text], end: Option<&Object>) -> bool
    ensures { result ≡
        unwrap_or (option_map (λ x. not (is_below_any types.now x.kind allowed.now)) (option_copied end.entry)) false }
{
    match end {
        Some(x) => !types.is_below_any(&x.kind, allowed),
        None => false,
    }
}

fn bars_end(types: &Types, allowed: &[Text], end: Option<&Object>) -> bool
    ensures { result ≡ bars_end types.now allowed.now (option_copied end.entry) }
{
    allowed.len() > 0 && is_beside(types, allowed, end)
}

fn bars_ends(
    types: &Types,
    kind: &TypeDef,
    source: Option<&Object>,
    target: Option<&Object>,
) -> bool
    ensures { result ≡ (bars_end types.now kind.now.allowed_source_types (option_copied source.entry)
        || bars_end types.now kind.now.allowed_target_types (option_copied target.entry)) }
{
    bars_end(types, kind.allowed_source_types.as_slice(), source)
        || bars_end(types, kind.allowed_target_types.as_slice(), target)
}

/// The type takes the ends, and lets what is asked be applied to a relationship. Takes no memory.
pub(crate) fn judge_link(
    types: &Types,
    call: &CreateRelationship,
    kind: &TypeDef,
    source: Option<&Object>,
    target: Option<&Object>,
) -> Result<(), Cause>
    ensures { result
        ≡ judge_link types.now call.now kind.now (option_copied source.entry) (option_copied target.entry) }
{
    if bars_ends(types, kind, source, target) {
        return Err(Cause::EndType);
    }
    if is_uncontrollable(kind, &call.object) {
        return Err(Cause::NotControllable);
    }
    Ok(())
}
