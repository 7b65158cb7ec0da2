//! What the default values cost that a new object takes.
ghost use Rattle.std.specs.Prelude.{◌≡◌, ◌+◌, [], ◌∷◌, map, sum, is_none};
ghost use Rattle.cm_map.specs.Parts.{pointee};
ghost use Rattle.cm_types.specs.Properties.{given_of};
ghost use Rattle.call_parts.specs.Weight.{bounded};
ghost use Rattle.wr_rules.specs.Rules.{scalar_cost, value_cost, defaults_cost};

use cm_base::value::{Scalar, Value};
use cm_rules::lookup::given_of;
use cm_types::given::Given;
use cm_types::property::PropDef;

fn with_scalar(so_far: u64, scalar: &Scalar) -> u64
    ensures { result ≡ bounded (so_far + scalar_cost scalar.now) }
{
    match scalar {
        Scalar::Words(text) => so_far.saturating_add(text.len() as u64).saturating_add(64),
        _ => so_far.saturating_add(64),
    }
}

fn with_scalars(so_far: u64, scalars: &[Scalar]) -> u64
    ensures { result ≡ bounded (so_far + sum (map scalar_cost scalars.now)) }
{
    let mut total = so_far;
    for scalar in scalars {
        total = with_scalar(total, scalar);
    }
    total
}

pub(crate) fn with_value(so_far: u64, value: &Value) -> u64
    ensures { result ≡ bounded (so_far + value_cost value.now) }
{
    match value {
        Value::Unset => so_far,
        Value::One(scalar) => with_scalar(so_far, scalar),
        Value::Many(scalars) => with_scalars(so_far, scalars.as_slice()),
    }
}

fn is_not_given(given: &[Given], def: &PropDef) -> bool
    ensures { result ≡ is_none (given_of given.now def.now.id) }
{
    given_of(given, &def.id).is_none()
}

// With the default value of a property, where it isn't given.
fn with_default(so_far: u64, def: &PropDef, given: &[Given]) -> u64
    ensures { result ≡ bounded (so_far + defaults_cost (def.now ∷ []) given.now) }
{
    if is_not_given(given, def) {
        with_value(so_far, &def.default)
    } else {
        so_far
    }
}

/// A cost, with that of the default values of the properties that are not given: 64 for a scalar, and the bytes of a text.
/// Takes no memory.
pub fn with_defaults(so_far: u64, defs: &[&PropDef], given: &[Given]) -> u64
    ensures { result ≡ bounded (so_far + defaults_cost (map pointee defs.now) given.now) }
{
    let mut total = so_far;
    for def in defs {
        total = with_default(total, def, given);
    }
    total
}
