//! What the values cost that a new document takes where none are given.
ghost use Rattle.std.specs.Prelude.{◌≡◌, ◌+◌, not, [], ◌∷◌, map, sum, is_none, is_some, if◌then◌else◌};
ghost use Rattle.cm_map.specs.Parts.{pointee};
ghost use Rattle.cm_types.specs.declared.definition.BaseType.TheVariants as bases;
ghost use Rattle.cm_types.specs.declared.given.PropertyCall.TheVariants as calls;
ghost use Rattle.cm_types.specs.Types.{type_in};
ghost use Rattle.cm_types.specs.Properties.{given_of, value_before};
ghost use Rattle.call_parts.specs.Weight.{bounded};
ghost use Rattle.cmis_spec.specs.Repository.{is_a};
ghost use Rattle.wr_rules.specs.Rules.{defaults_cost, scalar_cost, value_cost};
ghost use Rattle.wr_source.specs.Templates.{is_taken_over, taken_cost};
ghost use Rattle.wr_source.specs.CreateDocumentFromSource.{source_cost, unread_cost};

use crate::template::Template;
use cm_base::object::Object;
use cm_base::text::Text;
use cm_base::value::{Scalar, Slot, Value};
use cm_rules::lookup::{given_of, slot_in};
use cm_state::state::State;
use cm_types::definition::BaseType;
use cm_types::given::Given;
use cm_types::property::PropDef;
use wr_rules::costs::with_defaults;
use wr_rules::wanted::Wanted;

fn with_scalar(so_far: u64, scalar: &Scalar) -> u64
    ensures { result ≡ bounded (so_far + scalar_cost scalar.now) }
{
    match scalar {
        Scalar::Words(text) => so_far.saturating_add(text.len() as u64).saturating_add(64),
        _ => so_far.saturating_add(64),
    }
}

fn with_scalars(so_far: u64, scalars: &[Scalar]) -> u64
    ensures { result ≡ bounded (so_far + sum (map scalar_cost scalars.now)) }
{
    let mut total = so_far;
    for scalar in scalars {
        total = with_scalar(total, scalar);
    }
    total
}

fn with_value(so_far: u64, value: &Value) -> u64
    ensures { result ≡ bounded (so_far + value_cost value.now) }
{
    match value {
        Value::Unset => so_far,
        Value::One(scalar) => with_scalar(so_far, scalar),
        Value::Many(scalars) => with_scalars(so_far, scalars.as_slice()),
    }
}

// With the copied value of the property, or else its default value.
fn with_value_before(so_far: u64, def: &PropDef, copied: &[Slot]) -> u64
    ensures { result ≡ bounded (so_far + value_cost (value_before calls.Create copied.now def.now)) }
{
    match slot_in(copied, &def.id) {
        Some(value) => with_value(so_far, value),
        None => with_value(so_far, &def.default),
    }
}

fn is_not_given(given: &[Given], def: &PropDef) -> bool
    ensures { result ≡ is_none (given_of given.now def.now.id) }
{
    given_of(given, &def.id).is_none()
}

fn is_taken_over(given: &[Given], def: &PropDef) -> bool
    ensures { result ≡ is_taken_over given.now def.now }
{
    is_not_given(given, def) && !def.id.is_str("cmis:objectTypeId")
}

fn with_one(so_far: u64, def: &PropDef, copied: &[Slot], given: &[Given]) -> u64
    ensures { result ≡ bounded (so_far + taken_cost (def.now ∷ []) copied.now given.now) }
{
    if is_taken_over(given, def) {
        with_value_before(so_far, def, copied)
    } else {
        so_far
    }
}

fn with_taken(so_far: u64, defs: &[&PropDef], copied: &[Slot], given: &[Given]) -> u64
    ensures { result ≡ bounded (so_far + taken_cost (map pointee defs.now) copied.now given.now) }
{
    let mut total = so_far;
    for def in defs {
        total = with_one(total, def, copied, given);
    }
    total
}

// Whether a type is there.
fn is_there(state: &State, kind: &Text) -> bool
    ensures { result ≡ is_some (type_in state.now.types kind.now) }
{
    state.types().find(kind).is_some()
}

// With what is copied of a document, and the default values; or of another object with the default values alone.
fn with_values(so_far: u64, state: &State, given: &[Given], x: &Object, t: &Template<'_>) -> u64
    ensures { result ≡ bounded (so_far + (if is_a state.now bases.Document x.now
        then taken_cost t.now.defs t.now.copied given.now else defaults_cost t.now.defs given.now)) }
{
    if state.is_a(BaseType::Document, x) {
        with_taken(so_far, &t.defs, t.copied.as_slice(), given)
    } else {
        with_defaults(so_far, &t.defs, given)
    }
}

/// A cost, with that of what the new document takes over from its source, and of its default values. What is no document is not copied,
/// and where the type isn't there nothing counts. Takes no memory.
pub(crate) fn with_source(
    so_far: u64,
    state: &State,
    given: &[Given],
    x: &Object,
    t: &Template<'_>,
) -> u64
    ensures { result ≡ bounded (so_far + source_cost state.now given.now x.now t.now) }
{
    if is_there(state, &t.kind) {
        with_values(so_far, state, given, x, t)
    } else {
        so_far
    }
}

/// A cost, with that of the default values where no source is read, for which a type that is given and is there is needed.
pub(crate) fn with_unread(so_far: u64, state: &State, given: &[Given], wanted: &Wanted<'_>) -> u64
    ensures { result ≡ bounded (so_far + unread_cost state.now.types given.now wanted.now) }
{
    if is_there(state, &wanted.kind) {
        with_defaults(so_far, &wanted.defs, given)
    } else {
        so_far
    }
}
