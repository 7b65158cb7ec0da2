//! Which objects a caller reads.
ghost use Rattle.std.specs.Prelude.{◌≡◌, ◌-◌, ◌&&◌, ◌||◌, true, false, [], ◌∷◌, Option, Some, None, bytes_eq, find};
ghost use Rattle.std.specs.Option.{option_copied};
ghost use Rattle.std.specs.List.{list_all};
ghost use Rattle.cm_base.specs.declared.access.Level.TheVariants as levels;
ghost use Rattle.cm_types.specs.Properties.{value_in, scalars_of};
ghost use Rattle.cmis_spec.specs.Access.{is_at_least, level_by_list, reads_up, reads_end, reads_ends, reads, oid_named, object_named, read_at, read_named};
ghost use Rattle.cm_see.specs.Ends.{reads_end_named, reads_scalar};

use crate::level::{level, level_by_list};
use crate::tree::levels_up;
use cm_acl::level::is_at_least;
use cm_base::access::Level;
use cm_base::decimal::read_u64;
use cm_base::number::Oid;
use cm_base::object::Object;
use cm_base::text::Text;
use cm_base::value::{Scalar, Slot, Value};
use cm_state::open::ROOT;
use cm_state::state::State;
use cm_types::definition::BaseType;

fn reads_up(state: &State, levels: u64, user: &Text, folder: Oid) -> bool
    ensures { result ≡ reads_up levels state.now user.now folder }
{
    if levels == 0 || !is_at_least(Level::Read, level_by_list(state, user, folder)) {
        return false;
    }
    if folder == ROOT {
        return true;
    }
    match state.parent(folder) {
        Some(above) => reads_up(state, levels - 1, user, above),
        None => false,
    }
}

fn reads_end(state: &State, user: &Text, x: &Object) -> bool
    ensures { result ≡ reads_end state.now user.now x.now }
{
    if state.is_a(BaseType::Folder, x) {
        reads_up(state, levels_up(), user, x.id)
    } else {
        is_at_least(Level::Read, level(state, user, x))
    }
}

/// The number that an id names, if it names one. Takes no memory.
pub fn oid_named(id: &Text) -> Option<Oid>
    ensures { result ≡ oid_named id.now }
{
    match read_u64(id.bytes()) {
        Some(number) => Some(Oid(number)),
        None => None,
    }
}

/// The object whose id is this text. Takes no memory.
pub fn object_named<'a>(state: &'a State, id: &Text) -> Option<&'a Object>
    ensures { option_copied result ≡ object_named state.now id.now }
{
    let n = oid_named(id)?;
    state.object(n)
}

fn reads_end_named(state: &State, user: &Text, id: &Text) -> bool
    ensures { result ≡ reads_end_named state.now user.now id.now }
{
    match object_named(state, id) {
        Some(x) => reads_end(state, user, x),
        None => false,
    }
}

fn reads_scalar(state: &State, user: &Text, scalar: &Scalar) -> bool
    ensures { result ≡ reads_scalar state.now user.now scalar.now }
{
    match scalar {
        Scalar::Words(id) => reads_end_named(state, user, id),
        _ => true,
    }
}

fn reads_scalars(state: &State, user: &Text, scalars: &[Scalar]) -> bool
    ensures { result ≡ list_all (reads_scalar state.now user.now) scalars.now }
{
    scalars.iter().all(|s| reads_scalar(state, user, s))
}

fn reads_value(state: &State, user: &Text, value: &Value) -> bool
    ensures { result ≡ list_all (reads_scalar state.now user.now) (scalars_of value.now) }
{
    match value {
        Value::Unset => true,
        Value::One(scalar) => reads_scalar(state, user, scalar),
        Value::Many(scalars) => reads_scalars(state, user, scalars.as_slice()),
    }
}

/// The slot of a property. Takes no memory.
pub fn find_slot<'a>(slots: &'a [Slot], id: &str) -> Option<&'a Slot>
    ensures { option_copied result ≡ find (λ s. bytes_eq s.id id.now) slots.now }
{
    slots.iter().find(|s| s.id.is_str(id))
}

fn reads_slot(state: &State, user: &Text, slots: &[Slot], id: &str) -> bool
    ensures { result ≡ list_all (reads_scalar state.now user.now) (scalars_of (value_in slots.now id.now)) }
{
    match find_slot(slots, id) {
        Some(slot) => reads_value(state, user, &slot.value),
        None => true,
    }
}

fn reads_ends(state: &State, user: &Text, x: &Object, id: &str) -> bool
    ensures { result ≡ reads_ends state.now user.now x.now id.now }
{
    reads_slot(state, user, x.values.as_slice(), id)
}

/// Whether the caller reads the object. Takes no memory.
pub fn reads(state: &State, user: &Text, x: &Object) -> bool
    ensures { result ≡ reads state.now user.now x.now }
{
    if !state.is_a(BaseType::Relationship, x) {
        return reads_end(state, user, x);
    }
    is_at_least(Level::Read, level(state, user, x))
        && reads_ends(state, user, x, "cmis:sourceId")
        && reads_ends(state, user, x, "cmis:targetId")
}

/// The object of this number, where the caller reads it.
pub fn read_at<'a>(state: &'a State, user: &Text, n: Oid) -> Option<&'a Object>
    ensures { option_copied result ≡ read_at state.now user.now n }
{
    let x = state.object(n)?;
    if reads(state, user, x) { Some(x) } else { None }
}

/// The object whose id is this text, where the caller reads it.
pub fn read_named<'a>(state: &'a State, user: &Text, id: &Text) -> Option<&'a Object>
    ensures { option_copied result ≡ read_named state.now user.now id.now }
{
    let x = object_named(state, id)?;
    if reads(state, user, x) { Some(x) } else { None }
}
