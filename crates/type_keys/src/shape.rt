//! Which values have the kinds of the keys.
ghost use Rattle.std.specs.Prelude.{◌≡◌, ◌||◌, ◌&&◌, option_map, is_some};
ghost use Rattle.std.specs.List.{list_all, list_any};
ghost use Rattle.serde_json.specs.View.{view, items_view, members_view};
ghost use Rattle.json_text.specs.Keys.{value_at};
ghost use Rattle.type_keys.specs.Keys.{list_of, pairs_of, is_text, is_flag, is_whole, is_item, is_object, is_list, has_at, wrong_at, is_choice, is_mutability, is_objects, is_word, time_of, has_kind, has_wrong_key, type_keys, prop_keys};
ghost use Rattle.type_keys.specs.Words.{content_of, kind_of, cardinality_of, updatability_of};

use crate::kind::KeyKind;
use crate::word::{cardinality_of, content_of, kind_of, updatability_of};
use serde_json::{Map, Value};

/// The value at a key; none where the key is missing or null.
pub fn value_at<'a>(value: &'a Value, key: &str) -> Option<&'a Value>
    ensures { option_map (λ v. view v.now) result ≡ value_at key.now (view value.now) }
{
    match value.get(key) {
        None => None,
        Some(Value::Null) => None,
        Some(found) => Some(found),
    }
}

fn is_text(value: &Value) -> bool
    ensures { result ≡ is_text (view value.now) }
{
    match value {
        Value::String(_) => true,
        _ => false,
    }
}

fn is_flag(value: &Value) -> bool
    ensures { result ≡ is_flag (view value.now) }
{
    match value {
        Value::Bool(_) => true,
        _ => false,
    }
}

fn is_whole(value: &Value) -> bool
    ensures { result ≡ is_whole (view value.now) }
{
    match value {
        Value::Number(number) => number.as_i64().is_some(),
        _ => false,
    }
}

/// Whether the value is an object.
pub fn is_object(value: &Value) -> bool
    ensures { result ≡ is_object (view value.now) }
{
    match value {
        Value::Object(_) => true,
        _ => false,
    }
}

fn is_item(value: &Value) -> bool
    ensures { result ≡ is_item (view value.now) }
{
    is_flag(value) || is_whole(value) || is_text(value)
}

fn each_is_text(values: &[Value]) -> bool
    ensures { result ≡ list_all (λ v. is_text (view v)) values.now }
{
    values.iter().all(|v| is_text(v))
}

#[tactic(auto, using(crate::proofs::Views::all_view))]
fn are_texts(values: &[Value]) -> bool
    ensures { result ≡ list_all is_text (list_of (items_view values.now)) }
{
    each_is_text(values)
}

fn each_is_item(values: &[Value]) -> bool
    ensures { result ≡ list_all (λ v. is_item (view v)) values.now }
{
    values.iter().all(|v| is_item(v))
}

#[tactic(auto, using(crate::proofs::Views::all_view))]
fn are_items(values: &[Value]) -> bool
    ensures { result ≡ list_all is_item (list_of (items_view values.now)) }
{
    each_is_item(values)
}

fn is_choice(value: &Value) -> bool
    ensures { result ≡ is_choice (view value.now) }
{
    has_text(value, "displayName") && has_item(value, "value")
}

fn has_text(value: &Value, key: &str) -> bool
    ensures { result ≡ has_at is_text key.now (view value.now) }
{
    match value_at(value, key) {
        Some(found) => is_text(found),
        None => false,
    }
}

fn has_item(value: &Value, key: &str) -> bool
    ensures { result ≡ has_at is_item key.now (view value.now) }
{
    match value_at(value, key) {
        Some(found) => is_item(found),
        None => false,
    }
}

fn each_is_choice(values: &[Value]) -> bool
    ensures { result ≡ list_all (λ v. is_choice (view v)) values.now }
{
    values.iter().all(|v| is_choice(v))
}

#[tactic(auto, using(crate::proofs::Views::all_view))]
fn are_choices(values: &[Value]) -> bool
    ensures { result ≡ list_all is_choice (list_of (items_view values.now)) }
{
    each_is_choice(values)
}

fn is_wrong_flag(value: &Value, key: &str) -> bool
    ensures { result ≡ wrong_at is_flag key.now (view value.now) }
{
    match value_at(value, key) {
        Some(found) => !is_flag(found),
        None => false,
    }
}

fn is_mutability(value: &Value) -> bool
    ensures { result ≡ is_mutability (view value.now) }
{
    is_object(value)
        && !(is_wrong_flag(value, "create")
            || is_wrong_flag(value, "update")
            || is_wrong_flag(value, "delete"))
}

fn each_is_object(members: &Map<String, Value>) -> bool
    ensures { result ≡ list_all (λ m. is_object (view m.1)) members.now.entries }
{
    members.iter().all(|m| is_object(m.1))
}

#[tactic(auto, using(crate::proofs::Views::all_members))]
fn are_objects(members: &Map<String, Value>) -> bool
    ensures { result ≡ list_all (λ p. is_object p.1) (pairs_of (members_view members.now.entries)) }
{
    each_is_object(members)
}

fn is_texts(value: &Value) -> bool
    ensures { result ≡ is_list is_text (view value.now) }
{
    match value {
        Value::Array(values) => are_texts(values.as_slice()),
        _ => false,
    }
}

fn is_items(value: &Value) -> bool
    ensures { result ≡ is_list is_item (view value.now) }
{
    match value {
        Value::Array(values) => are_items(values.as_slice()),
        _ => false,
    }
}

fn is_choices(value: &Value) -> bool
    ensures { result ≡ is_list is_choice (view value.now) }
{
    match value {
        Value::Array(values) => are_choices(values.as_slice()),
        _ => false,
    }
}

fn is_objects(value: &Value) -> bool
    ensures { result ≡ is_objects (view value.now) }
{
    match value {
        Value::Object(members) => are_objects(members),
        _ => false,
    }
}

fn is_content_word(value: &Value) -> bool
    ensures { result ≡ is_word content_of (view value.now) }
{
    match value {
        Value::String(text) => content_of(text.as_str()).is_some(),
        _ => false,
    }
}

fn is_kind_word(value: &Value) -> bool
    ensures { result ≡ is_word kind_of (view value.now) }
{
    match value {
        Value::String(text) => kind_of(text.as_str()).is_some(),
        _ => false,
    }
}

fn is_cardinality_word(value: &Value) -> bool
    ensures { result ≡ is_word cardinality_of (view value.now) }
{
    match value {
        Value::String(text) => cardinality_of(text.as_str()).is_some(),
        _ => false,
    }
}

fn is_updatability_word(value: &Value) -> bool
    ensures { result ≡ is_word updatability_of (view value.now) }
{
    match value {
        Value::String(text) => updatability_of(text.as_str()).is_some(),
        _ => false,
    }
}

fn is_time(text: &str) -> bool
    ensures { result ≡ is_some (time_of text.now) }
{
    text.as_bytes() == b"time".as_slice()
}

fn is_time_word(value: &Value) -> bool
    ensures { result ≡ is_word time_of (view value.now) }
{
    match value {
        Value::String(text) => is_time(text.as_str()),
        _ => false,
    }
}

fn has_kind(kind: KeyKind, value: &Value) -> bool
    ensures { result ≡ has_kind kind (view value.now) }
{
    match kind {
        KeyKind::Text => is_text(value),
        KeyKind::Flag => is_flag(value),
        KeyKind::Whole => is_whole(value),
        KeyKind::Texts => is_texts(value),
        KeyKind::Scalars => is_items(value),
        KeyKind::Choices => is_choices(value),
        KeyKind::Mutability => is_mutability(value),
        KeyKind::Objects => is_objects(value),
        KeyKind::ContentWord => is_content_word(value),
        KeyKind::KindWord => is_kind_word(value),
        KeyKind::CardinalityWord => is_cardinality_word(value),
        KeyKind::UpdatabilityWord => is_updatability_word(value),
        KeyKind::TimeWord => is_time_word(value),
    }
}

fn is_wrong_key(value: &Value, key: &str, kind: KeyKind) -> bool
    ensures { result ≡ wrong_at (has_kind kind) key.now (view value.now) }
{
    match value_at(value, key) {
        Some(found) => !has_kind(kind, found),
        None => false,
    }
}

fn has_wrong_in(value: &Value, keys: &[(&str, KeyKind)]) -> bool
    ensures { result ≡ list_any (λ k. wrong_at (has_kind k.1) k.0.now (view value.now)) keys.now }
{
    keys.iter().any(|k| is_wrong_key(value, k.0, k.1))
}

/// Whether a key of a type has a value of another kind.
pub fn has_wrong_type_key(value: &Value) -> bool
    ensures { result ≡ has_wrong_key type_keys (view value.now) }
{
    let keys = [
        ("id", KeyKind::Text),
        ("localName", KeyKind::Text),
        ("localNamespace", KeyKind::Text),
        ("displayName", KeyKind::Text),
        ("queryName", KeyKind::Text),
        ("description", KeyKind::Text),
        ("baseId", KeyKind::Text),
        ("parentId", KeyKind::Text),
        ("creatable", KeyKind::Flag),
        ("fileable", KeyKind::Flag),
        ("queryable", KeyKind::Flag),
        ("fulltextIndexed", KeyKind::Flag),
        ("includedInSupertypeQuery", KeyKind::Flag),
        ("controllablePolicy", KeyKind::Flag),
        ("controllableACL", KeyKind::Flag),
        ("typeMutability", KeyKind::Mutability),
        ("versionable", KeyKind::Flag),
        ("contentStreamAllowed", KeyKind::ContentWord),
        ("allowedSourceTypes", KeyKind::Texts),
        ("allowedTargetTypes", KeyKind::Texts),
        ("propertyDefinitions", KeyKind::Objects),
    ];
    has_wrong_in(value, &keys)
}

/// Whether a key of a property definition has a value of another kind.
pub fn has_wrong_prop_key(value: &Value) -> bool
    ensures { result ≡ has_wrong_key prop_keys (view value.now) }
{
    let keys = [
        ("id", KeyKind::Text),
        ("localName", KeyKind::Text),
        ("localNamespace", KeyKind::Text),
        ("displayName", KeyKind::Text),
        ("queryName", KeyKind::Text),
        ("description", KeyKind::Text),
        ("propertyType", KeyKind::KindWord),
        ("cardinality", KeyKind::CardinalityWord),
        ("updatability", KeyKind::UpdatabilityWord),
        ("inherited", KeyKind::Flag),
        ("required", KeyKind::Flag),
        ("queryable", KeyKind::Flag),
        ("orderable", KeyKind::Flag),
        ("openChoice", KeyKind::Flag),
        ("choice", KeyKind::Choices),
        ("defaultValue", KeyKind::Scalars),
        ("maxLength", KeyKind::Whole),
        ("minValue", KeyKind::Whole),
        ("maxValue", KeyKind::Whole),
        ("resolution", KeyKind::TimeWord),
    ];
    has_wrong_in(value, &keys)
}
