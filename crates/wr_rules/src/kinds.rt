//! The types that a call names.
ghost use Rattle.std.specs.Prelude.{◌≡◌, ◌&&◌, not, IfOk, is_none, nat_lt, length};
ghost use Rattle.std.specs.List.{list_any};
ghost use Rattle.cm_base.specs.Judged.{first_cause};
ghost use Rattle.cm_types.specs.Types.{type_in, is_below};
ghost use Rattle.wr_rules.specs.Rules.{unknown_type, has_other_secondary, bars, bars_child};
ghost use Rattle.wr_rules.specs.Named.{is_below_scalar};

use cm_base::cause::Cause;
use cm_base::object::Object;
use cm_base::text::Text;
use cm_base::value::{Scalar, Value};
use cm_see::read::find_slot;
use cm_state::state::State;
use cm_type_list::types::Types;
use std::alloc::{AllocError, Global};

fn has_unknown(types: &Types, ids: &[Text]) -> bool
    ensures { result ≡ list_any (λ id. is_none (type_in types.now id)) ids.now }
{
    ids.iter().any(|id| types.find(id).is_none())
}

/// Whether there is a type of each id. Takes no memory.
pub fn judge_types(types: &Types, ids: &[Text]) -> Result<(), Cause>
    ensures { result ≡ first_cause (unknown_type types.now) ids.now }
{
    if has_unknown(types, ids) {
        return Err(Cause::TypeNotFound);
    }
    Ok(())
}

fn has_type_beside(types: &Types, ids: &[Text], above: &Text) -> bool
    ensures { result ≡ list_any (λ id. not (is_below types.now id above.now)) ids.now }
{
    ids.iter().any(|id| !types.is_below(id, above))
}

/// Whether one of the types is no secondary type.
pub fn has_other_secondary(alloc: Global, types: &Types, ids: &[Text]) -> Result<bool, AllocError>
    ensures { IfOk result (λ b. b ≡ has_other_secondary types.now ids.now) }
{
    let secondary = Text::from_str(alloc, "cmis:secondary")?;
    Ok(has_type_beside(types, ids, &secondary))
}

fn is_below_scalar(types: &Types, kind: &Text, scalar: &Scalar) -> bool
    ensures { result ≡ is_below_scalar types.now kind.now scalar.now }
{
    match scalar {
        Scalar::Words(above) => types.is_below(kind, above),
        _ => false,
    }
}

fn is_below_one(types: &Types, kind: &Text, scalars: &[Scalar]) -> bool
    ensures { result ≡ list_any (is_below_scalar types.now kind.now) scalars.now }
{
    scalars.iter().any(|s| is_below_scalar(types, kind, s))
}

fn bars_by(types: &Types, kind: &Text, scalars: &[Scalar]) -> bool
    ensures { result ≡ (nat_lt 0 (length scalars.now)
        && not (list_any (is_below_scalar types.now kind.now) scalars.now)) }
{
    scalars.len() > 0 && !is_below_one(types, kind, scalars)
}

fn bars_scalar(types: &Types, kind: &Text, scalar: &Scalar) -> bool
    ensures { result ≡ not (is_below_scalar types.now kind.now scalar.now) }
{
    !is_below_scalar(types, kind, scalar)
}

#[tactic(auto, using(crate::proofs::Named::below_scalars))]
fn bars(types: &Types, kind: &Text, value: &Value) -> bool
    ensures { result ≡ bars types.now kind.now value.now }
{
    match value {
        Value::Unset => false,
        Value::One(scalar) => bars_scalar(types, kind, scalar),
        Value::Many(scalars) => bars_by(types, kind, scalars.as_slice()),
    }
}

/// Whether the folder bars children of the type (cmis:allowedChildObjectTypeIds, CMIS 1.1, section 2.1.5.4.2). Takes no memory.
pub fn bars_child(state: &State, folder: &Object, kind: &Text) -> bool
    ensures { result ≡ bars_child state.now folder.now kind.now }
{
    match find_slot(folder.values.as_slice(), "cmis:allowedChildObjectTypeIds") {
        Some(slot) => bars(state.types(), kind, &slot.value),
        None => false,
    }
}
