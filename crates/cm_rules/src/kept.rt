//! The values that are kept.
ghost use Rattle.std.specs.Prelude.{◌≡◌, IfOk, OnOk, [], ◌∷◌, ◌++◌, if◌then◌else◌, false, map};
ghost use Rattle.cm_base.specs.Judged.{Meets, judge_by, first_cause};
ghost use Rattle.cm_map.specs.Parts.{pointee};
ghost use Rattle.cm_types.specs.Properties.{is_set, value_of_texts, stated, value_before, kept_value, is_missing, missing_cause};
ghost use Rattle.cm_types.specs.declared.property.Cardinality.TheVariants.{Single};
ghost use Rattle.cmis_spec.specs.Values.{is_apart, values_kept};

use crate::fault::stated;
use crate::lookup::{given_of, slot_in};
use crate::text::is_formless;
use cm_base::cause::{Cause, PropertyFault};
use cm_base::copies::Copies;
use cm_base::fail::Fail;
use cm_base::items::Items;
use cm_base::text::Text;
use cm_base::value::{Slot, Value, Values};
use cm_types::given::{Given, PropertyCall};
use cm_types::property::{Cardinality, PropDef, PropertyKind};
use std::alloc::{AllocError, Global};

/// Whether a value is set.
pub fn is_set(value: &Value) -> bool
    ensures { result ≡ is_set value.now }
{
    match value {
        Value::Unset => false,
        _ => true,
    }
}

fn value_before(
    alloc: Global,
    call: PropertyCall,
    old: &[Slot],
    def: &PropDef,
) -> Result<Value, AllocError>
    ensures { IfOk result (λ v. v ≡ value_before call old.now def.now) }
{
    match call {
        PropertyCall::Create => match slot_in(old, &def.id) {
            Some(value) => value.copied(alloc),
            None => def.default.copied(alloc),
        },
        _ => match slot_in(old, &def.id) {
            Some(value) => value.copied(alloc),
            None => Ok(Value::Unset),
        },
    }
}

fn kept_value(
    alloc: Global,
    call: PropertyCall,
    old: &[Slot],
    given: &[Given],
    def: &PropDef,
) -> Result<Value, AllocError>
    ensures { IfOk result (λ v. v ≡ kept_value call old.now given.now def.now) }
{
    match given_of(given, &def.id) {
        Some(one) => stated(alloc, def, one),
        None => value_before(alloc, call, old, def),
    }
}

fn is_apart(id: &Text) -> bool
    ensures { result ≡ is_apart id.now }
{
    id.is_str("cmis:name")
        || id.is_str("cmis:objectTypeId")
        || id.is_str("cmis:secondaryObjectTypeIds")
}

// Puts a value at the end, where it is set.
fn put(alloc: Global, kept: &mut Values, id: &Text, value: Value) -> Result<(), AllocError>
    ensures { OnOk result (kept.new
        ≡ kept.old ++ (if is_set value then (record { id = id.now; value = value }) ∷ [] else [])) }
{
    if !is_set(&value) {
        return Ok(());
    }
    let id = id.copied(alloc)?;
    kept.push(Slot { id, value })
}

// Puts the value of a property at the end, where an object keeps it beside its name and types.
fn keep(
    alloc: Global,
    kept: &mut Values,
    call: PropertyCall,
    old: &[Slot],
    given: &[Given],
    def: &PropDef,
) -> Result<(), AllocError>
    ensures { OnOk result (kept.new ≡ kept.old ++ values_kept call (def.now ∷ []) old.now given.now) }
{
    if is_apart(&def.id) {
        return Ok(());
    }
    let value = kept_value(alloc, call, old, given, def)?;
    put(alloc, kept, &def.id, value)
}

/// The values that are kept, by the order of the definitions: the set ones, but the name and the types, which an object has beside them.
pub fn values_kept(
    alloc: Global,
    call: PropertyCall,
    defs: &[&PropDef],
    old: &[Slot],
    given: &[Given],
) -> Result<Values, AllocError>
    ensures { IfOk result (λ v. v ≡ values_kept call (map pointee defs.now) old.now given.now) }
{
    let mut kept = Items::new(alloc);
    for def in defs {
        keep(alloc, &mut kept, call, old, given, def)?;
    }
    Ok(kept)
}

#[tactic(auto, using(crate::proofs::Lists::is_set_one))]
fn states_one(kind: PropertyKind, text: &Text) -> bool
    ensures { result ≡ is_set (value_of_texts kind Single (text.now ∷ [])) }
{
    !is_formless(kind, text)
}

fn states_some(kind: PropertyKind, cardinality: Cardinality, texts: &[Text]) -> bool
    ensures { result ≡ is_set (value_of_texts kind cardinality texts.now) }
{
    match texts {
        [] => false,
        [text, ..] => match cardinality {
            Cardinality::Single => states_one(kind, text),
            Cardinality::Multi => true,
        },
    }
}

fn is_set_before(call: PropertyCall, old: &[Slot], def: &PropDef) -> bool
    ensures { result ≡ is_set (value_before call old.now def.now) }
{
    match slot_in(old, &def.id) {
        Some(value) => is_set(value),
        None => match call {
            PropertyCall::Create => is_set(&def.default),
            _ => false,
        },
    }
}

fn is_kept_set(call: PropertyCall, old: &[Slot], given: &[Given], def: &PropDef) -> bool
    ensures { result ≡ is_set (kept_value call old.now given.now def.now) }
{
    match given_of(given, &def.id) {
        Some(one) => states_some(def.kind, def.cardinality, one.texts.as_slice()),
        None => is_set_before(call, old, def),
    }
}

fn is_missing(call: PropertyCall, old: &[Slot], given: &[Given], def: &PropDef) -> bool
    ensures { result ≡ is_missing call old.now given.now def.now }
{
    def.required && !is_kept_set(call, old, given, def)
}

fn judge_one(
    alloc: Global,
    call: PropertyCall,
    old: &[Slot],
    given: &[Given],
    def: &PropDef,
) -> Result<(), Fail>
    ensures { Meets (λ x. x) result (judge_by (missing_cause call old.now given.now def.now)) }
{
    if is_missing(call, old, given, def) {
        let id = def.id.copied(alloc)?;
        return Err(Fail::Refused(Cause::Property(id, PropertyFault::Required)));
    }
    Ok(())
}

#[tactic(auto, using(cm_types::proofs::Exits::first_more, cm_types::proofs::Exits::first_fails, cm_types::proofs::Exits::first_none))]
pub(crate) fn judge_missing(
    alloc: Global,
    call: PropertyCall,
    defs: &[&PropDef],
    old: &[Slot],
    given: &[Given],
) -> Result<(), Fail>
    ensures { Meets (λ x. x) result (first_cause (missing_cause call old.now given.now) (map pointee defs.now)) }
{
    for def in defs {
        judge_one(alloc, call, old, given, def)?;
    }
    Ok(())
}
