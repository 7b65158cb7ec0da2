//! The rules of new property definitions, one by one and of lists of them, and of a new type's attributes.
ghost use Rattle.std.specs.Prelude.{◌≡◌, ◌||◌};
ghost use Rattle.std.specs.List.{list_any};
ghost use Rattle.cm_types.specs.Changes.{clashes, is_wrong_choice, is_many_for, gives_many, has_wrong_value, is_wrongly_ordered, new_props, is_given_as, breaks_attribute_rule};

use crate::made::{cardinality_of, is_new, is_secondary, is_single, scalars_asked};
use cm_base::value::Scalar;
use cm_types::definition::TypeDef;
use cm_types::fault::{is_of_kind, is_out_of_range, is_too_long, value_fault};
use cm_types::property::{Cardinality, Choice, PropDef};
use cm_types::request::{PropRequest, TypeRequest};

/// Whether two property definitions share an id or a query name.
pub fn clashes(a: &PropDef, b: &PropDef) -> bool
    ensures { result ≡ clashes a.now b.now }
{
    a.id.is(&b.id) || a.query_name.is(&b.query_name)
}

fn is_wrong_choice(def: &PropDef, choice: &Choice) -> bool
    ensures { result ≡ is_wrong_choice def.now choice.now }
{
    !is_of_kind(def.kind, &choice.value)
        || is_too_long(def, &choice.value)
        || is_out_of_range(def, &choice.value)
}

fn is_many_for(cardinality: Cardinality, scalars: &[Scalar]) -> bool
    ensures { result ≡ is_many_for cardinality scalars.now }
{
    match cardinality {
        Cardinality::Single => scalars.len() > 1,
        Cardinality::Multi => false,
    }
}

/// Whether a default value of several scalars is asked for a single property.
pub fn gives_many(request: &PropRequest) -> bool
    ensures { result ≡ gives_many request.now }
{
    is_many_for(cardinality_of(request), scalars_asked(request))
}

fn has_wrong_choice(def: &PropDef, choices: &[Choice]) -> bool
    ensures { result ≡ list_any (is_wrong_choice def.now) choices.now }
{
    choices.iter().any(|c| is_wrong_choice(def, c))
}

/// Whether the default value, or the value of a choice, has a fault.
pub fn has_wrong_value(def: &PropDef) -> bool
    ensures { result ≡ has_wrong_value def.now }
{
    value_fault(def, &def.default).is_some() || has_wrong_choice(def, def.choices.as_slice())
}

/// Whether a property of several values would be orderable.
pub fn is_wrongly_ordered(def: &PropDef) -> bool
    ensures { result ≡ is_wrongly_ordered def.now }
{
    def.orderable && !is_single(def.cardinality)
}

/// Whether a default value, or the value of a choice, of one of the definitions has a fault.
pub fn are_wrong(defs: &[PropDef]) -> bool
    ensures { result ≡ list_any has_wrong_value defs.now }
{
    defs.iter().any(|d| has_wrong_value(d))
}

/// Whether one of the definitions is a property of several values that would be orderable.
pub fn are_wrongly_ordered(defs: &[PropDef]) -> bool
    ensures { result ≡ list_any is_wrongly_ordered defs.now }
{
    defs.iter().any(|d| is_wrongly_ordered(d))
}

/// Whether one of the requests asks for a default value of several scalars for a single property.
pub fn give_many(requests: &[PropRequest]) -> bool
    ensures { result ≡ list_any gives_many requests.now }
{
    requests.iter().any(|r| gives_many(r))
}

/// Whether a request for a property that is not there yet asks for such a default value.
pub fn new_give_many(defs: &[PropDef], requests: &[PropRequest]) -> bool
    ensures { result ≡ list_any gives_many (new_props defs.now requests.now) }
{
    requests
        .iter()
        .filter(|r| is_new(defs, *r))
        .any(|r| gives_many(r))
}

/// Whether one of the definitions is of a required property.
pub fn are_required(defs: &[PropDef]) -> bool
    ensures { result ≡ list_any (λ d. d.required) defs.now }
{
    defs.iter().any(|d| d.required)
}

fn is_given_as(flag: bool, given: Option<bool>) -> bool
    ensures { result ≡ is_given_as flag given }
{
    match given {
        Some(given) => flag == given,
        None => false,
    }
}

/// Whether a request gives an attribute that its parent's kind of type can't have: another fileability than the parent's, a
/// secondary type that is creatable, or full text that is indexed.
pub fn breaks_attribute_rule(parent: &TypeDef, request: &TypeRequest) -> bool
    ensures { result ≡ breaks_attribute_rule parent.now request.now }
{
    is_given_as(!parent.fileable, request.fileable)
        || is_secondary(parent.base) && is_given_as(true, request.creatable)
        || is_given_as(true, request.fulltext_indexed)
}
