//! What retention and holds keep (CMIS 1.1, section 2.1.16). Nothing here takes memory.
ghost use Rattle.std.specs.Prelude.{◌≡◌, [], ◌∷◌, ◌&&◌, bytes_eq, codes, filter_map, option_and_then};
ghost use Rattle.std.specs.List.{list_any};
ghost use Rattle.cm_base.specs.Judged.{first_cause};
ghost use Rattle.cm_types.specs.Types.{chain_of, is_below, longest_chain};
ghost use Rattle.cm_types.specs.Properties.{is_set, value_in};
ghost use Rattle.cmis_spec.specs.Repository.{object_at};
ghost use Rattle.cmis_spec.specs.Retention.{expiration_in, ends_before, has_type, is_document_version, is_to_come, is_under_hold, judge_kept, judge_retention, moment_of_scalar, moment_of_value, retained_cause, retained_until, shortened_cause, to_come};
ghost use Rattle.wr_rules.specs.Retained.{is_held_at, retained_at};

use crate::versions::is_working_copy;
use cm_base::cause::Cause;
use cm_base::number::{Moment, Oid};
use cm_base::object::Object;
use cm_base::text::{Text, Texts};
use cm_base::value::{Scalar, Slot, Value, Values};
use cm_rules::kept::is_set;
use cm_see::read::find_slot;
use cm_state::state::State;
use cm_type_list::types::Types;
use cm_types::definition::BaseType;

#[tactic(auto, unfolding(cm_types::specs::Types::longest_chain))]
fn longest_chain() -> u64
    ensures { result ≡ longest_chain }
{
    16
}

fn is_below_in(types: &Types, levels: u64, id: &Text, above: &str) -> bool
    ensures { result ≡ list_any (λ t. bytes_eq t.id above.now) (chain_of levels types.now id.now) }
{
    if levels == 0 {
        return false;
    }
    match types.find(id) {
        None => false,
        Some(def) => {
            if def.id.is_str(above) {
                return true;
            }
            match &def.parent {
                Some(parent) => is_below_in(types, levels - 1, parent, above),
                None => false,
            }
        }
    }
}

fn is_below(types: &Types, id: &Text, above: &str) -> bool
    ensures { result ≡ is_below types.now id.now above.now }
{
    is_below_in(types, longest_chain(), id, above)
}

// Whether one of the secondary types is the one with this id, or below it.
fn has_type(types: &Types, secondary: &[Text], id: &str) -> bool
    ensures { result ≡ has_type types.now secondary.now id.now }
{
    secondary.iter().any(|s| is_below(types, s, id))
}

fn is_document_version(state: &State, x: &Object) -> bool
    ensures { result ≡ is_document_version state.now x.now }
{
    state.is_a(BaseType::Document, x) && !is_working_copy(state, x)
}

fn has_value(values: &[Slot], id: &str) -> bool
    ensures { result ≡ is_set (value_in values.now id.now) }
{
    match find_slot(values, id) {
        Some(slot) => is_set(&slot.value),
        None => false,
    }
}

fn has_hold(types: &Types, secondary: &[Text], values: &[Slot]) -> bool
    ensures { result ≡ (has_type types.now secondary.now (codes "cmis:rm_hold") && is_set (value_in values.now (codes "cmis:rm_holdIds"))) }
{
    has_type(types, secondary, "cmis:rm_hold") && has_value(values, "cmis:rm_holdIds")
}

/// Whether the object is a version of a document that a hold names (section 2.1.16.2): no working copy. Takes no memory.
pub fn is_under_hold(state: &State, x: &Object) -> bool
    ensures { result ≡ is_under_hold state.now x.now }
{
    is_document_version(state, x)
        && has_hold(state.types(), x.secondary.as_slice(), x.values.as_slice())
}

fn moment_of_scalar(scalar: &Scalar) -> Option<Moment>
    ensures { result ≡ moment_of_scalar scalar.now }
{
    match scalar {
        Scalar::Time(moment) => Some(Moment(*moment)),
        _ => None,
    }
}

fn moment_of_value(value: &Value) -> Option<Moment>
    ensures { result ≡ moment_of_value value.now }
{
    match value {
        Value::One(scalar) => moment_of_scalar(scalar),
        _ => None,
    }
}

fn moment_in(values: &[Slot], id: &str) -> Option<Moment>
    ensures { result ≡ moment_of_value (value_in values.now id.now) }
{
    match find_slot(values, id) {
        Some(slot) => moment_of_value(&slot.value),
        None => None,
    }
}

// When the retention ends of which the secondary types and the values tell.
fn expiration_in(types: &Types, secondary: &[Text], values: &[Slot]) -> Option<Moment>
    ensures { result ≡ expiration_in types.now secondary.now values.now }
{
    if has_type(types, secondary, "cmis:rm_clientMgtRetention") {
        moment_in(values, "cmis:rm_expirationDate")
    } else {
        None
    }
}

fn is_to_come(moment: Moment, expiration: Moment) -> bool
    ensures { result ≡ is_to_come moment expiration }
{
    moment.0 < expiration.0
}

fn to_come(moment: Moment, expiration: Moment) -> Option<Moment>
    ensures { result ≡ to_come moment expiration }
{
    if is_to_come(moment, expiration) {
        Some(expiration)
    } else {
        None
    }
}

fn still_to_come(moment: Moment, expiration: Option<Moment>) -> Option<Moment>
    ensures { result ≡ option_and_then (to_come moment) expiration }
{
    match expiration {
        Some(expiration) => to_come(moment, expiration),
        None => None,
    }
}

// When the retention of the object ends, where it is under one at the moment.
fn retained_until(state: &State, moment: Moment, x: &Object) -> Option<Moment>
    ensures { result ≡ retained_until state.now moment x.now }
{
    if !is_document_version(state, x) {
        return None;
    }
    let expiration = expiration_in(state.types(), x.secondary.as_slice(), x.values.as_slice());
    still_to_come(moment, expiration)
}

fn retained_cause(state: &State, moment: Moment, x: &Object) -> Option<Cause>
    ensures { result ≡ retained_cause state.now moment x.now }
{
    match retained_until(state, moment, x) {
        Some(expiration) => Some(Cause::Retained(moment, expiration)),
        None => None,
    }
}

/// Whether the contents of the object may go at the moment: Held for a version of a document under hold; Retained, with the moment
/// and the expiration, for one whose retention isn't over then. Takes no memory.
pub fn judge_kept(state: &State, moment: Moment, x: &Object) -> Result<(), Cause>
    ensures { result ≡ judge_kept state.now moment (x.now ∷ []) }
{
    if is_under_hold(state, x) {
        return Err(Cause::Held);
    }
    match retained_cause(state, moment, x) {
        Some(cause) => Err(cause),
        None => Ok(()),
    }
}

fn is_held_at(state: &State, n: Oid) -> bool
    ensures { result ≡ is_held_at state.now n }
{
    match state.object(n) {
        Some(x) => is_under_hold(state, x),
        None => false,
    }
}

fn is_one_held(state: &State, numbers: &[Oid]) -> bool
    ensures { result ≡ list_any (is_held_at state.now) numbers.now }
{
    numbers.iter().any(|n| is_held_at(state, *n))
}

fn retained_at(state: &State, moment: Moment, n: Oid) -> Option<Cause>
    ensures { result ≡ retained_at state.now moment n }
{
    match state.object(n) {
        Some(x) => retained_cause(state, moment, x),
        None => None,
    }
}

fn judge_retained(state: &State, moment: Moment, numbers: &[Oid]) -> Result<(), Cause>
    ensures { result ≡ first_cause (retained_at state.now moment) numbers.now }
{
    for number in numbers {
        match retained_at(state, moment, *number) {
            Some(cause) => return Err(cause),
            None => {}
        }
    }
    Ok(())
}

/// Whether all objects of these numbers may go at the moment: Held where one of them is a version of a document under hold, else
/// Retained, with the moment and the expiration of the first whose retention isn't over then. Takes no memory.
pub fn judge_all_kept(state: &State, moment: Moment, numbers: &[Oid]) -> Result<(), Cause>
    ensures { result ≡ judge_kept state.now moment (filter_map (object_at state.now) numbers.now) }
{
    if is_one_held(state, numbers) {
        return Err(Cause::Held);
    }
    judge_retained(state, moment, numbers)
}

fn ends_before(types: &Types, secondary: &[Text], values: &[Slot], expiration: Moment) -> bool
    ensures { result ≡ ends_before types.now secondary.now values.now expiration }
{
    match expiration_in(types, secondary, values) {
        Some(end) => is_to_come(end, expiration),
        None => true,
    }
}

fn shortened_cause(
    state: &State,
    moment: Moment,
    secondary: &[Text],
    values: &[Slot],
    x: &Object,
) -> Option<Cause>
    ensures { result ≡ shortened_cause state.now moment secondary.now values.now x.now }
{
    let expiration = retained_until(state, moment, x)?;
    if ends_before(state.types(), secondary, values, expiration) {
        Some(Cause::Shortened(moment, expiration))
    } else {
        None
    }
}

/// Whether the object may have these secondary types and values at the moment: Shortened, with the moment and the expiration, where
/// it is a version of a document whose retention isn't over then, and would be under none or under one that ends earlier. Takes no
/// memory.
pub fn judge_retention(
    state: &State,
    moment: Moment,
    secondary: &Texts,
    values: &Values,
    x: &Object,
) -> Result<(), Cause>
    ensures { result ≡ judge_retention state.now moment secondary.now values.now x.now }
{
    match shortened_cause(state, moment, secondary.as_slice(), values.as_slice(), x) {
        Some(cause) => Err(cause),
        None => Ok(()),
    }
}
