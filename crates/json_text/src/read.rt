//! What is read: a text's value, and what stands at the keys of an object.
ghost use Rattle.std.specs.Prelude.{◌≡◌, Some, None, MatchResult, option_map};
ghost use Rattle.serde_json.specs.View.{view, items_view, members_view};
ghost use Rattle.serde_json.specs.Find.{as_bool, as_str, as_array, as_object};
ghost use Rattle.json_text.specs.Keys.{ReadsText, of_kind, as_whole, value_at};

use serde_json::{Map, Value};
use std::alloc::Global;

/// Why a text has no value.
#[derive(Clone, Copy, Debug, PartialEq, Eq)]
pub enum ReadStop {
    /// It is no JSON.
    Text,
    /// There was no memory.
    Memory,
}

/// A value of another kind than is asked for.
#[derive(Clone, Copy, Debug, PartialEq, Eq)]
pub struct WrongKind;

/// The value of a text (RFC 8259), as serde_json reads it.
pub fn read_value(alloc: Global, text: &str) -> Result<Value, ReadStop>
    ensures { ReadsText result text.now }
{
    match Value::from_str(alloc, text) {
        Ok(value) => Ok(value),
        Err(error) => {
            if error.is_memory() {
                Err(ReadStop::Memory)
            } else {
                Err(ReadStop::Text)
            }
        }
    }
}

/// The string at a key; none where the key is missing or null.
pub fn text_at<'a>(value: &'a Value, key: &str) -> Result<Option<&'a str>, WrongKind>
    ensures { MatchResult result
        (λ o. of_kind as_str (value_at key.now (view value.now)) ≡ Some (option_map (λ s. s.now) o))
        (λ _. of_kind as_str (value_at key.now (view value.now)) ≡ None) }
{
    match value.get(key) {
        None => Ok(None),
        Some(Value::Null) => Ok(None),
        Some(Value::String(text)) => Ok(Some(text.as_str())),
        Some(_) => Err(WrongKind),
    }
}

/// The integer at a key; none where the key is missing or null.
pub fn whole_at(value: &Value, key: &str) -> Result<Option<i64>, WrongKind>
    ensures { MatchResult result
        (λ o. of_kind as_whole (value_at key.now (view value.now)) ≡ Some o)
        (λ _. of_kind as_whole (value_at key.now (view value.now)) ≡ None) }
{
    match value.get(key) {
        None => Ok(None),
        Some(Value::Null) => Ok(None),
        Some(Value::Number(number)) => match number.as_i64() {
            Some(whole) => Ok(Some(whole)),
            None => Err(WrongKind),
        },
        Some(_) => Err(WrongKind),
    }
}

/// The boolean at a key; none where the key is missing or null.
pub fn flag_at(value: &Value, key: &str) -> Result<Option<bool>, WrongKind>
    ensures { MatchResult result
        (λ o. of_kind as_bool (value_at key.now (view value.now)) ≡ Some o)
        (λ _. of_kind as_bool (value_at key.now (view value.now)) ≡ None) }
{
    match value.get(key) {
        None => Ok(None),
        Some(Value::Null) => Ok(None),
        Some(Value::Bool(flag)) => Ok(Some(*flag)),
        Some(_) => Err(WrongKind),
    }
}

/// The elements of the array at a key; none where the key is missing or null.
pub fn elements_at<'a>(value: &'a Value, key: &str) -> Result<Option<&'a [Value]>, WrongKind>
    ensures { MatchResult result
        (λ o. of_kind as_array (value_at key.now (view value.now)) ≡ Some (option_map (λ v. items_view v.now) o))
        (λ _. of_kind as_array (value_at key.now (view value.now)) ≡ None) }
{
    match value.get(key) {
        None => Ok(None),
        Some(Value::Null) => Ok(None),
        Some(Value::Array(list)) => Ok(Some(list.as_slice())),
        Some(_) => Err(WrongKind),
    }
}

/// The members of the object at a key; none where the key is missing or null.
pub fn members_at<'a>(
    value: &'a Value,
    key: &str,
) -> Result<Option<&'a Map<String, Value>>, WrongKind>
    ensures { MatchResult result
        (λ o. of_kind as_object (value_at key.now (view value.now))
        ≡ Some (option_map (λ m. members_view m.now.entries) o))
        (λ _. of_kind as_object (value_at key.now (view value.now)) ≡ None) }
{
    match value.get(key) {
        None => Ok(None),
        Some(Value::Null) => Ok(None),
        Some(Value::Object(members)) => Ok(Some(members)),
        Some(_) => Err(WrongKind),
    }
}
