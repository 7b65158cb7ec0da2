//! Why a value asks for no type.
ghost use Rattle.std.specs.Prelude.{◌≡◌, ◌||◌, ◌&&◌, not, IfOk, unwrap_or, bytes_eq, string_bytes, codes};
ghost use Rattle.std.specs.List.{list_any};
ghost use Rattle.serde_json.specs.View.{view, members_view};
ghost use Rattle.cm_base.specs.Judged.{Meets};
ghost use Rattle.cm_types.specs.Changes.{has_wrong_value, made_props};
ghost use Rattle.type_json.specs.Reading.{text_in, id_in, base_in, props_in, lacks, lacks_prop_key, lacks_parent, lacks_key, has_other_key, has_wrong_kind, has_wrong_name, has_wrong_names, have_wrong_values, judge_values, judge_type, judge_type_text};
ghost use Rattle.type_keys.specs.Keys.{pairs_of, prop_keys, has_wrong_key};

use crate::asked::{base_in, id_in, props_of, text_in, type_request};
use cm_base::cause::Cause;
use cm_base::fail::Fail;
use cm_types::request::{PropRequest, TypeRequest};
use json_text::read::{ReadStop, read_value};
use serde_json::{Map, Value};
use std::alloc::{AllocError, Global};
use type_keys::shape::{has_wrong_prop_key, has_wrong_type_key, is_object, value_at};
use type_keys::word::{is_id, is_query_name};
use type_requests::made::made_all;
use type_requests::rules::{are_wrong, give_many};

fn lacks(value: &Value, key: &str) -> bool
    ensures { result ≡ lacks key.now (view value.now) }
{
    match value_at(value, key) {
        Some(_) => false,
        None => true,
    }
}

fn lacks_prop_key(value: &Value) -> bool
    ensures { result ≡ lacks_prop_key (view value.now) }
{
    lacks(value, "id") || lacks(value, "propertyType")
}

fn lacks_parent(value: &Value) -> bool
    ensures { result ≡ lacks_parent (view value.now) }
{
    lacks(value, "parentId") && !(id_in(value).as_bytes() == base_in(value).as_bytes())
}

fn each_lacks(members: &Map<String, Value>) -> bool
    ensures { result ≡ list_any (λ m. lacks_prop_key (view m.1)) members.now.entries }
{
    members.iter().any(|m| lacks_prop_key(m.1))
}

#[tactic(auto, using(crate::proofs::Views::any_members))]
fn some_lacks(members: &Map<String, Value>) -> bool
    ensures { result ≡ list_any (λ p. lacks_prop_key p.1) (pairs_of (members_view members.now.entries)) }
{
    each_lacks(members)
}

fn prop_lacks(value: &Value) -> bool
    ensures { result ≡ list_any (λ p. lacks_prop_key p.1) (props_in (view value.now)) }
{
    match props_of(value) {
        Some(members) => some_lacks(members),
        None => false,
    }
}

fn lacks_key(value: &Value) -> bool
    ensures { result ≡ lacks_key (view value.now) }
{
    lacks(value, "id") || lacks(value, "baseId") || lacks_parent(value) || prop_lacks(value)
}

fn is_other_id(value: &Value, key: &str) -> bool
    ensures { result ≡ not (bytes_eq (id_in (view value.now)) key.now) }
{
    !(id_in(value).as_bytes() == key.as_bytes())
}

fn each_other_key(members: &Map<String, Value>) -> bool
    ensures { result ≡ list_any (λ m. not (bytes_eq (id_in (view m.1)) (string_bytes m.0))) members.now.entries }
{
    members.iter().any(|m| is_other_id(m.1, m.0.as_str()))
}

#[tactic(auto, using(crate::proofs::Views::any_members))]
fn some_other_key(members: &Map<String, Value>) -> bool
    ensures { result ≡ list_any (λ p. not (bytes_eq (id_in p.1) p.0)) (pairs_of (members_view members.now.entries)) }
{
    each_other_key(members)
}

fn has_other_key(value: &Value) -> bool
    ensures { result ≡ has_other_key (view value.now) }
{
    match props_of(value) {
        Some(members) => some_other_key(members),
        None => false,
    }
}

fn each_wrong_kind(members: &Map<String, Value>) -> bool
    ensures { result ≡ list_any (λ m. has_wrong_key prop_keys (view m.1)) members.now.entries }
{
    members.iter().any(|m| has_wrong_prop_key(m.1))
}

#[tactic(auto, using(crate::proofs::Views::any_members))]
fn some_wrong_kind(members: &Map<String, Value>) -> bool
    ensures { result ≡ list_any (λ p. has_wrong_key prop_keys p.1) (pairs_of (members_view members.now.entries)) }
{
    each_wrong_kind(members)
}

fn prop_has_wrong_kind(value: &Value) -> bool
    ensures { result ≡ list_any (λ p. has_wrong_key prop_keys p.1) (props_in (view value.now)) }
{
    match props_of(value) {
        Some(members) => some_wrong_kind(members),
        None => false,
    }
}

fn has_wrong_kind(value: &Value) -> bool
    ensures { result ≡ has_wrong_kind (view value.now) }
{
    has_wrong_type_key(value) || prop_has_wrong_kind(value)
}

fn query_name_in(value: &Value) -> &str
    ensures { result.now ≡ unwrap_or (text_in (codes "queryName") (view value.now)) (id_in (view value.now)) }
{
    match text_in(value, "queryName") {
        Some(name) => name,
        None => id_in(value),
    }
}

fn has_wrong_name(value: &Value) -> bool
    ensures { result ≡ has_wrong_name (view value.now) }
{
    !is_id(id_in(value)) || !is_query_name(query_name_in(value))
}

fn each_wrong_name(members: &Map<String, Value>) -> bool
    ensures { result ≡ list_any (λ m. has_wrong_name (view m.1)) members.now.entries }
{
    members.iter().any(|m| has_wrong_name(m.1))
}

#[tactic(auto, using(crate::proofs::Views::any_members))]
fn some_wrong_name(members: &Map<String, Value>) -> bool
    ensures { result ≡ list_any (λ p. has_wrong_name p.1) (pairs_of (members_view members.now.entries)) }
{
    each_wrong_name(members)
}

fn prop_has_wrong_name(value: &Value) -> bool
    ensures { result ≡ list_any (λ p. has_wrong_name p.1) (props_in (view value.now)) }
{
    match props_of(value) {
        Some(members) => some_wrong_name(members),
        None => false,
    }
}

fn has_wrong_names(value: &Value) -> bool
    ensures { result ≡ has_wrong_names (view value.now) }
{
    has_wrong_name(value) || prop_has_wrong_name(value)
}

fn made_wrong(alloc: Global, requests: &[PropRequest]) -> Result<bool, AllocError>
    ensures { IfOk result (λ b. b ≡ list_any has_wrong_value (made_props requests.now)) }
{
    let made = made_all(alloc, requests)?;
    let wrong = are_wrong(made.as_slice());
    Ok(wrong)
}

fn have_wrong_values(alloc: Global, requests: &[PropRequest]) -> Result<bool, AllocError>
    ensures { IfOk result (λ b. b ≡ have_wrong_values requests.now) }
{
    if give_many(requests) {
        return Ok(true);
    }
    made_wrong(alloc, requests)
}

// What is asked, where the values of the properties have no fault.
fn faultless(alloc: Global, value: &Value) -> Result<TypeRequest, Fail>
    ensures { Meets (λ q. q) result (judge_values (view value.now)) }
{
    let request = type_request(alloc, value)?;
    if have_wrong_values(alloc, request.properties.as_slice())? {
        return Err(Fail::Refused(Cause::BadTypeText));
    }
    Ok(request)
}

fn judged(alloc: Global, value: &Value) -> Result<TypeRequest, Fail>
    ensures { Meets (λ q. q) result (judge_type (view value.now)) }
{
    if !is_object(value) {
        return Err(Fail::Refused(Cause::BadTypeText));
    }
    if has_wrong_kind(value) {
        return Err(Fail::Refused(Cause::BadTypeText));
    }
    if lacks_key(value) {
        return Err(Fail::Refused(Cause::BadTypeText));
    }
    if has_other_key(value) {
        return Err(Fail::Refused(Cause::BadTypeText));
    }
    if has_wrong_names(value) {
        return Err(Fail::Refused(Cause::BadTypeText));
    }
    faultless(alloc, value)
}

/// What a text asks of a type (CMIS 1.1, section 5.2.9).
///
/// BadTypeText for a text that is no JSON or no object, that lacks a key that is needed, whose property definition has another
/// key than its id, or that has a value of another kind, an id or a query name of another form, or a default value or a choice
/// with a fault.
pub fn read_type(alloc: Global, text: &str) -> Result<TypeRequest, Fail>
    ensures { Meets (λ q. q) result (judge_type_text text.now) }
{
    match read_value(alloc, text) {
        Ok(value) => judged(alloc, &value),
        Err(ReadStop::Text) => Err(Fail::Refused(Cause::BadTypeText)),
        Err(ReadStop::Memory) => Err(Fail::Memory),
    }
}
