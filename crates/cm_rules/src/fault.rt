//! What is wrong with a given property.
ghost use Rattle.std.specs.Prelude.{◌≡◌, IfOk, map};
ghost use Rattle.cm_base.specs.Judged.{Meets, judge_by, first_cause};
ghost use Rattle.cm_map.specs.Parts.{pointee};
ghost use Rattle.cm_types.specs.Properties.{may_give, has_other_form, breaks_cardinality, breaks_form, stated, fault_by, property_fault, given_cause};

use crate::lookup::def_of;
use crate::text::{is_formless, value_of_texts};
use cm_base::cause::{Cause, PropertyFault};
use cm_base::copies::Copies;
use cm_base::fail::Fail;
use cm_base::value::Value;
use cm_types::fault::value_fault;
use cm_types::given::{Given, PropertyCall};
use cm_types::property::{Cardinality, PropDef, Updatability};
use std::alloc::{AllocError, Global};

fn may_give(call: PropertyCall, updatability: Updatability) -> bool
    ensures { result ≡ may_give call updatability }
{
    match updatability {
        Updatability::ReadOnly => false,
        Updatability::ReadWrite => true,
        Updatability::OnCreate => matches!(call, PropertyCall::Create),
        Updatability::WhenCheckedOut => match call {
            PropertyCall::Update(working) => working,
            _ => true,
        },
    }
}

fn has_other_form(cardinality: Cardinality, given: &Given) -> bool
    ensures { result ≡ has_other_form cardinality given.now }
{
    match cardinality {
        Cardinality::Single => given.several || given.texts.len() > 1,
        Cardinality::Multi => false,
    }
}

fn breaks_cardinality(def: &PropDef, given: &Given) -> bool
    ensures { result ≡ breaks_cardinality def.now given.now }
{
    given.texts.len() > 0 && has_other_form(def.cardinality, given)
}

fn breaks_form(def: &PropDef, given: &Given) -> bool
    ensures { result ≡ breaks_form def.now given.now }
{
    given
        .texts
        .as_slice()
        .iter()
        .any(|text| is_formless(def.kind, text))
}

/// The value that a given property states; no text unsets it.
pub fn stated(alloc: Global, def: &PropDef, given: &Given) -> Result<Value, AllocError>
    ensures { IfOk result (λ v. v ≡ stated def.now given.now) }
{
    value_of_texts(alloc, def.kind, def.cardinality, given.texts.as_slice())
}

fn fault_by(
    alloc: Global,
    call: PropertyCall,
    def: &PropDef,
    given: &Given,
) -> Result<Option<PropertyFault>, AllocError>
    ensures { IfOk result (λ f. f ≡ fault_by call def.now given.now) }
{
    if !may_give(call, def.updatability) {
        Ok(Some(PropertyFault::Readonly))
    } else if breaks_cardinality(def, given) {
        Ok(Some(PropertyFault::Cardinality))
    } else if breaks_form(def, given) {
        Ok(Some(PropertyFault::Form))
    } else {
        let value = stated(alloc, def, given)?;
        Ok(value_fault(def, &value))
    }
}

/// The first fault of a given property: unknown, readonly, cardinality, form, length, range, choice.
pub fn property_fault(
    alloc: Global,
    call: PropertyCall,
    defs: &[&PropDef],
    given: &Given,
) -> Result<Option<PropertyFault>, AllocError>
    ensures { IfOk result (λ f. f ≡ property_fault call (map pointee defs.now) given.now) }
{
    match def_of(defs, &given.id) {
        Some(def) => fault_by(alloc, call, def, given),
        None => Ok(Some(PropertyFault::Unknown)),
    }
}

fn judge_one(
    alloc: Global,
    call: PropertyCall,
    defs: &[&PropDef],
    given: &Given,
) -> Result<(), Fail>
    ensures { Meets (λ x. x) result (judge_by (given_cause call (map pointee defs.now) given.now)) }
{
    match property_fault(alloc, call, defs, given)? {
        Some(fault) => Err(Fail::Refused(Cause::Property(given.id.copied(alloc)?, fault))),
        None => Ok(()),
    }
}

#[tactic(auto, using(cm_types::proofs::Exits::first_more, cm_types::proofs::Exits::first_fails, cm_types::proofs::Exits::first_none))]
pub(crate) fn judge_given(
    alloc: Global,
    call: PropertyCall,
    defs: &[&PropDef],
    given: &[Given],
) -> Result<(), Fail>
    ensures { Meets (λ x. x) result (first_cause (given_cause call (map pointee defs.now)) given.now) }
{
    for one in given {
        judge_one(alloc, call, defs, one)?;
    }
    Ok(())
}
