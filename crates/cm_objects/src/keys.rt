//! What an object is looked up by.
ghost use Rattle.std.specs.Prelude.{◌≡◌, ◌++◌, [], ◌∷◌, OnOk, IfOk, find, map, bytes_eq};
ghost use Rattle.std.specs.Option.{option_copied};
ghost use Rattle.std.specs.List.{filter_map};
ghost use Rattle.cm_types.specs.Properties.{value_in, scalars_of};
ghost use Rattle.cmis_spec.specs.Removal.{ends_of};
ghost use Rattle.cm_objects.specs.declared.index_key.IndexKey.TheVariants.{Kind};
ghost use Rattle.cm_objects.specs.Indexed.{end_key, scalar_key, keys_of};

use crate::index_key::IndexKey;
use cm_base::copies::Copies;
use cm_base::decimal::read_u64;
use cm_base::items::Items;
use cm_base::number::Oid;
use cm_base::object::Object;
use cm_base::text::Text;
use cm_base::value::{Scalar, Slot, Value};
use std::alloc::{AllocError, Global};

/// Keys of an index.
pub type Keys = Items<IndexKey>;

// The end that an id names.
fn end_key(id: &Text) -> Option<IndexKey>
    ensures { result ≡ end_key id.now }
{
    match read_u64(id.bytes()) {
        Some(number) => Some(IndexKey::End(Oid(number))),
        None => None,
    }
}

fn scalar_key(scalar: &Scalar) -> Option<IndexKey>
    ensures { result ≡ scalar_key scalar.now }
{
    match scalar {
        Scalar::Words(id) => end_key(id),
        _ => None,
    }
}

fn push_key(keys: &mut Keys, scalar: &Scalar) -> Result<(), AllocError>
    ensures { OnOk result (keys.new ≡ keys.old ++ filter_map scalar_key (scalar.now ∷ [])) }
{
    match scalar_key(scalar) {
        Some(key) => keys.push(key),
        None => Ok(()),
    }
}

fn push_scalars(keys: &mut Keys, scalars: &[Scalar]) -> Result<(), AllocError>
    ensures { OnOk result (keys.new ≡ keys.old ++ filter_map scalar_key scalars.now) }
{
    for scalar in scalars {
        push_key(keys, scalar)?;
    }
    Ok(())
}

fn push_value(keys: &mut Keys, value: &Value) -> Result<(), AllocError>
    ensures { OnOk result (keys.new ≡ keys.old ++ filter_map scalar_key (scalars_of value.now)) }
{
    match value {
        Value::Unset => Ok(()),
        Value::One(scalar) => push_key(keys, scalar),
        Value::Many(scalars) => push_scalars(keys, scalars.as_slice()),
    }
}

fn slot_of<'a>(slots: &'a [Slot], id: &str) -> Option<&'a Slot>
    ensures { option_copied result ≡ find (λ s. bytes_eq s.id id.now) slots.now }
{
    slots.iter().find(|s| s.id.is_str(id))
}

// The ends that the property names.
fn push_named(keys: &mut Keys, x: &Object, id: &str) -> Result<(), AllocError>
    ensures { OnOk result (keys.new ≡ keys.old ++ filter_map scalar_key (scalars_of (value_in x.now.values id.now))) }
{
    match slot_of(x.values.as_slice(), id) {
        Some(slot) => push_value(keys, &slot.value),
        None => Ok(()),
    }
}

// The ends that the object names.
fn ends_of(alloc: Global, x: &Object) -> Result<Keys, AllocError>
    ensures { IfOk result (λ ks. ks ≡ filter_map end_key (ends_of x.now)) }
{
    let mut keys = Items::new(alloc);
    push_named(&mut keys, x, "cmis:sourceId")?;
    push_named(&mut keys, x, "cmis:targetId")?;
    Ok(keys)
}

// A type.
fn push_type(alloc: Global, keys: &mut Keys, id: &Text) -> Result<(), AllocError>
    ensures { OnOk result (keys.new ≡ keys.old ++ Kind id.now ∷ []) }
{
    let id = id.copied(alloc)?;
    keys.push(IndexKey::Kind(id))
}

fn push_types(alloc: Global, keys: &mut Keys, ids: &[Text]) -> Result<(), AllocError>
    ensures { OnOk result (keys.new ≡ keys.old ++ map Kind ids.now) }
{
    for id in ids {
        push_type(alloc, keys, id)?;
    }
    Ok(())
}

/// The keys of the object.
pub fn keys_of(alloc: Global, x: &Object) -> Result<Keys, AllocError>
    ensures { IfOk result (λ ks. ks ≡ keys_of x.now) }
{
    let mut keys = ends_of(alloc, x)?;
    push_type(alloc, &mut keys, &x.kind)?;
    push_types(alloc, &mut keys, x.secondary.as_slice())?;
    Ok(keys)
}
