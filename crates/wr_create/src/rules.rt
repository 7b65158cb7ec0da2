//! The rules that the calls share which make an item, a policy or a relationship.
ghost use Rattle.std.specs.Prelude.{◌≡◌, ◌||◌, not, [], bytes_eq, codes, IfOk};
ghost use Rattle.cm_base.specs.Judged.{Leaves, Meets};
ghost use Rattle.cm_types.specs.declared.given.PropertyCall.TheVariants as calls;
ghost use Rattle.cm_types.specs.Types.{same_base};
ghost use Rattle.cmis_spec.specs.Values.{values_kept};
ghost use Rattle.wr_rules.specs.Rules.{has_other_secondary};
ghost use Rattle.wr_rules.specs.Wanted.{wanted_in};
ghost use Rattle.wr_create.specs.Making.{judge_addressed, judge_type, is_uncontrollable, judge_request, cost_of_making};

use call_parts::place::Place;
use cm_base::cause::Cause;
use cm_base::fail::Fail;
use cm_base::name::name_ok;
use cm_base::text::Text;
use cm_base::value::Values;
use cm_see::address::addressed;
use cm_state::state::State;
use cm_type_list::types::Types;
use cm_types::definition::{BaseType, TypeDef};
use cm_types::given::Givens;
use create_parts::writes::ObjectRequest;
use std::alloc::{AllocError, Global};
use wr_object::asked::{bars_changes, has_unknown, judge_values};
use wr_rules::costs::with_defaults;
use wr_rules::kinds::has_other_secondary;
use wr_rules::wanted::Wanted;

/// Whether what is addressed, if anything is, is read. Takes no memory.
pub fn judge_addressed(state: &State, user: &Text, place: &Option<Place>) -> Result<(), Cause>
    ensures { result ≡ judge_addressed state.now user.now place.now }
{
    match place {
        Some(place) => match addressed(state, user, place) {
            Some(_) => Ok(()),
            None => Err(Cause::NotFound),
        },
        None => Ok(()),
    }
}

/// Whether the caller is nobody who is known, who makes nothing outside folders. Takes no memory.
pub fn is_anonymous(user: &Text) -> bool
    ensures { result ≡ bytes_eq user.now (codes "anonymous") }
{
    user.is_str("anonymous")
}

fn same_base(a: BaseType, b: BaseType) -> bool
    ensures { result ≡ same_base a b }
{
    match (a, b) {
        (BaseType::Document, BaseType::Document) => true,
        (BaseType::Folder, BaseType::Folder) => true,
        (BaseType::Relationship, BaseType::Relationship) => true,
        (BaseType::Policy, BaseType::Policy) => true,
        (BaseType::Item, BaseType::Item) => true,
        (BaseType::Secondary, BaseType::Secondary) => true,
        _ => false,
    }
}

fn is_wrong_type(
    alloc: Global,
    types: &Types,
    base: BaseType,
    wanted: &Wanted<'_>,
    kind: &TypeDef,
) -> Result<bool, AllocError>
    ensures { IfOk result (λ b. b ≡
        (not (same_base base kind.now.base) || has_other_secondary types.now wanted.now.secondary)) }
{
    if !same_base(base, kind.base) {
        return Ok(true);
    }
    has_other_secondary(alloc, types, wanted.secondary.as_slice())
}

/// Whether the type has this base, the secondary types are such types, and objects are made of the type.
pub fn judge_type(
    alloc: Global,
    types: &Types,
    base: BaseType,
    wanted: &Wanted<'_>,
    kind: &TypeDef,
) -> Result<(), Fail>
    ensures { Meets (λ x. x) result (judge_type types.now base wanted.now kind.now) }
{
    let is_wrong = is_wrong_type(alloc, types, base, wanted, kind)?;
    if is_wrong {
        return Err(Fail::Refused(Cause::TypeKind));
    }
    if !kind.creatable {
        return Err(Fail::Refused(Cause::NotCreatable));
    }
    Ok(())
}

/// Whether the type lets no policies be applied and some are given, or no list be changed and entries are given. Takes no memory.
pub fn is_uncontrollable(kind: &TypeDef, object: &ObjectRequest) -> bool
    ensures { result ≡ is_uncontrollable kind.now object.now }
{
    bars_changes(
        kind,
        object.policies.as_slice(),
        object.remove.as_slice(),
        object.add.as_slice(),
    )
}

/// The values of the new object, or the first fault of its properties, of its entries and of its name.
#[tactic(auto, using(cm_types::proofs::Exits::fails_then))]
pub fn judge_request(
    alloc: Global,
    wanted: &Wanted<'_>,
    object: &ObjectRequest,
    given: &Givens,
) -> Result<Values, Fail>
    ensures { Leaves result
        (judge_request wanted.now object.now given.now)
        (values_kept calls.Create wanted.now.defs [] given.now) }
{
    let values = judge_values(alloc, &wanted.defs, given)?;
    if has_unknown(object.remove.as_slice(), object.add.as_slice()) {
        return Err(Fail::Refused(Cause::Permission));
    }
    if !name_ok(wanted.name.bytes()) {
        return Err(Fail::Refused(Cause::BadName));
    }
    Ok(values)
}

/// The cost of a call of this weight that gives these properties. Takes no memory.
pub fn cost_of_making(state: &State, weight: u64, wanted: &Wanted<'_>, given: &Givens) -> u64
    requires wanted { wanted.now ≡ wanted_in state.now.types given.now }
    ensures { result ≡ cost_of_making state.now weight given.now }
{
    match state.types().find(&wanted.kind) {
        Some(_) => with_defaults(weight, &wanted.defs, given.as_slice()),
        None => weight,
    }
}
