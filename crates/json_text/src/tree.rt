//! Values that are written: no floats, and in each object the names in byte order, whatever the order in which they were put.
ghost use Rattle.std.specs.Prelude.{◌≡◌, ◌≢◌, ◌≤◌, ℕ, List, Some, true, false, [], ◌∷◌, ◌++◌, IfOk, OnOk};
ghost use Rattle.serde_json.specs.Data.{Data, Members, unsigned, null, boolean, number, string, object, no_members, depth};
ghost use Rattle.serde_json.specs.Find.{of_integer};
ghost use Rattle.serde_json.specs.Read.{read, max_depth};
ghost use Rattle.serde_json.specs.View.{view, items_view, members_view};
ghost use Rattle.serde_json.specs.Written.{has_float, items_have_float, members_have_float, compact_text};
ghost use Rattle.json_text.specs.Build.{list_data, with_field, in_order, items_in_order, members_in_order};

use serde_json::{Map, Value};
use std::alloc::{AllocError, Global};

/// A JSON value; contracts say `data_of` for what it stands for.
#[derive(Drop)]
pub struct Json {
    value: Value,
    ghost no_float: { has_float (view value) ≡ false },
    ghost ordered: { in_order (view value) ≡ true },
}

/// The elements of an array; contracts say `listed` for their list.
#[derive(Drop)]
pub struct Elements {
    list: Vec<Value>,
    ghost no_float: { items_have_float (items_view list.items) ≡ false },
    ghost ordered: { items_in_order (items_view list.items) ≡ true },
}

/// The members of an object; contracts say `fields_of` for their names and values, in byte order of the names.
#[derive(Drop)]
pub struct Fields {
    map: Map<String, Value>,
    ghost no_float: { members_have_float (members_view map.entries) ≡ false },
    ghost ordered: { members_in_order (members_view map.entries) ≡ true },
}

impl Json {
    ghost use Rattle.json_text.specs.Shown.{data_of, fields_of, listed};

    /// null
    pub fn null() -> Json
        ensures { data_of result ≡ null }
    {
        Json { value: Value::Null }
    }

    /// true or false
    pub fn flag(b: bool) -> Json
        ensures { data_of result ≡ boolean b }
    {
        Json {
            value: Value::from(b),
        }
    }

    /// An integer.
    pub fn whole(n: i64) -> Json
        ensures { data_of result ≡ number (of_integer n) }
    {
        Json {
            value: Value::from(n),
        }
    }

    /// A number that is not below zero.
    pub fn count(n: u64) -> Json
        ensures { data_of result ≡ number (unsigned n) }
    {
        Json {
            value: Value::from(n),
        }
    }

    /// A string.
    pub fn text(alloc: Global, text: &str) -> Result<Json, AllocError>
        ensures { IfOk result (λ j. data_of j ≡ string text.now) }
    {
        Ok(Json {
            value: Value::try_from_str(alloc, text)?,
        })
    }

    /// An object of these members, without taking memory.
    pub fn object(fields: Fields) -> Json
        ensures { data_of result ≡ object (fields_of fields) }
    {
        Json {
            value: Value::from(fields.map),
        }
    }

    /// An array of these elements, without taking memory.
    pub fn array(elements: Elements) -> Json
        ensures { data_of result ≡ list_data (listed elements) }
    {
        Json {
            value: Value::from(elements.list),
        }
    }

    /// The text, with no space. In each object the names ascend by bytes, and the text reads back as the value.
    pub fn to_vec(&self, alloc: Global) -> Result<Vec<u8>, AllocError>
        ensures text { IfOk result (λ b. b.items ≡ compact_text (data_of self.now)) }
        ensures ordered { in_order (data_of self.now) ≡ true }
        ensures reads_back { IfOk result (λ b. depth (data_of self.now) ≤ max_depth
            → read b.items ≡ Some (data_of self.now)) }
    {
        self.value.to_vec(alloc)
    }
}

impl Elements {
    ghost use Rattle.json_text.specs.Shown.{data_of, listed};

    /// No elements, which takes no memory.
    pub fn new(alloc: Global) -> Elements
        ensures { listed result ≡ [] }
    {
        Elements {
            list: Vec::new(alloc),
        }
    }

    /// Adds an element at the end.
    pub fn push(&mut self, value: Json) -> Result<(), AllocError>
        ensures { OnOk result (listed self.new ≡ listed self.old ++ data_of value ∷ []) }
    {
        serde_json::push(&mut self.list, value.value)
    }
}

impl Fields {
    ghost use Rattle.json_text.specs.Shown.{data_of, fields_of};

    /// No members, which takes no memory.
    pub fn new(alloc: Global) -> Fields
        ensures { fields_of result ≡ no_members }
    {
        Fields {
            map: Map::new(alloc),
        }
    }

    /// Puts a value at a name: at its place in byte order, or in place of the value that the name has.
    pub fn put(&mut self, alloc: Global, name: &str, value: Json) -> Result<(), AllocError>
        ensures { OnOk result (fields_of self.new ≡ with_field (fields_of self.old) (name.now, data_of value)) }
    {
        serde_json::put(&mut self.map, alloc, name, value.value)
    }
}

/// Two names are put in either order, and the object is the same.
pub fn any_order()
    ensures { (k l : List ℕ) (d e : Data) (ms : Members) → k ≢ l
        → with_field (with_field ms (l, e)) (k, d) ≡ with_field (with_field ms (k, d)) (l, e) }
{}
