//! The ends of relationships. Nothing here takes memory.
ghost use Rattle.std.specs.Prelude.{◌≡◌};
ghost use Rattle.std.specs.List.{list_any};
ghost use Rattle.cm_types.specs.Properties.{scalars_of, value_in};
ghost use Rattle.cmis_spec.specs.Removal.{is_id_of};
ghost use Rattle.cm_relationships.specs.Found.{has_end, is_end, names};

use cm_base::number::Oid;
use cm_base::object::Object;
use cm_base::text::Text;
use cm_base::value::{Scalar, Slot, Value};
use cm_see::read::{find_slot, oid_named};
use relationship_parts::readings::Direction;

fn is_id_of(n: Oid, id: &Text) -> bool
    ensures { result ≡ is_id_of n id.now }
{
    match oid_named(id) {
        Some(m) => n == m,
        None => false,
    }
}

fn names(n: Oid, scalar: &Scalar) -> bool
    ensures { result ≡ names n scalar.now }
{
    match scalar {
        Scalar::Words(id) => is_id_of(n, id),
        _ => false,
    }
}

fn any_names(n: Oid, scalars: &[Scalar]) -> bool
    ensures { result ≡ list_any (names n) scalars.now }
{
    scalars.iter().any(|s| names(n, s))
}

fn value_names(n: Oid, value: &Value) -> bool
    ensures { result ≡ list_any (names n) (scalars_of value.now) }
{
    match value {
        Value::Unset => false,
        Value::One(scalar) => names(n, scalar),
        Value::Many(scalars) => any_names(n, scalars.as_slice()),
    }
}

fn slot_names(n: Oid, slots: &[Slot], property: &str) -> bool
    ensures { result ≡ list_any (names n) (scalars_of (value_in slots.now property.now)) }
{
    match find_slot(slots, property) {
        Some(slot) => value_names(n, &slot.value),
        None => false,
    }
}

fn is_end(n: Oid, property: &str, x: &Object) -> bool
    ensures { result ≡ is_end n property.now x.now }
{
    slot_names(n, x.values.as_slice(), property)
}

/// Whether the object of this number stands at an end of x that is asked for.
pub(crate) fn has_end(direction: Direction, n: Oid, x: &Object) -> bool
    ensures { result ≡ has_end direction n x.now }
{
    match direction {
        Direction::Source => is_end(n, "cmis:sourceId", x),
        Direction::Target => is_end(n, "cmis:targetId", x),
        Direction::Either => is_end(n, "cmis:sourceId", x) || is_end(n, "cmis:targetId", x),
    }
}
