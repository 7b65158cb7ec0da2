//! Definitions of properties (CMIS 1.1, section 2.1.3.3).
ghost use Rattle.std.specs.Prelude.{◌≡◌};

use crate::together::{all_four, both};
use cm_base::copies::Copies;
use cm_base::items::Items;
use cm_base::text::Text;
use cm_base::value::{Scalar, Value};
use std::alloc::{AllocError, Global};

/// The kinds of properties; decimal properties are left out.
#[derive(Clone, Copy, Debug, PartialEq, Eq)]
pub enum PropertyKind {
    Boolean,
    Integer,
    Datetime,
    String,
    Uri,
    Id,
    Html,
}

/// Whether a property has one value or a list of them.
#[derive(Clone, Copy, Debug, PartialEq, Eq)]
pub enum Cardinality {
    Single,
    Multi,
}

/// When a property may be given.
#[derive(Clone, Copy, Debug, PartialEq, Eq)]
pub enum Updatability {
    ReadOnly,
    ReadWrite,
    OnCreate,
    WhenCheckedOut,
}

/// A choice that a property offers.
#[derive(Drop)]
pub struct Choice {
    pub display_name: Text,
    pub value: Scalar,
}

/// The choices in their order.
pub type Choices = Items<Choice>;

/// The definition of a property.
#[derive(Drop)]
pub struct PropDef {
    pub id: Text,
    pub local_name: Text,
    pub local_namespace: Text,
    pub display_name: Text,
    pub query_name: Text,
    pub description: Text,
    pub kind: PropertyKind,
    pub cardinality: Cardinality,
    pub updatability: Updatability,
    pub required: bool,
    pub queryable: bool,
    pub orderable: bool,
    /// Whether values beside the choices are allowed.
    pub open_choice: bool,
    pub choices: Choices,
    /// The value that a new object takes where the property isn't given.
    pub default: Value,
    /// The most characters (Unicode scalar values) of a string.
    pub max_length: Option<i64>,
    /// The bounds of an integer.
    pub min_value: Option<i64>,
    pub max_value: Option<i64>,
}

/// The definitions of a type in byte order of their ids.
pub type PropDefs = Items<PropDef>;

impl Copies for Choice {
    fn copied(&self, alloc: Global) -> Result<Choice, AllocError> {
        Ok(Choice {
            display_name: self.display_name.copied(alloc)?,
            value: self.value.copied(alloc)?,
        })
    }
}

impl Copies for PropDef {
    fn copied(&self, alloc: Global) -> Result<PropDef, AllocError> {
        let names = all_four(
            &self.local_name,
            &self.local_namespace,
            &self.display_name,
            &self.query_name,
            alloc,
        )?;
        let first = both(&self.id, &self.description, alloc)?;
        let second = both(&self.choices, &self.default, alloc)?;
        let (local_name, local_namespace, display_name, query_name) = names.apart();
        let (id, description) = first.apart();
        let (choices, default) = second.apart();
        Ok(PropDef {
            id,
            local_name,
            local_namespace,
            display_name,
            query_name,
            description,
            kind: self.kind,
            cardinality: self.cardinality,
            updatability: self.updatability,
            required: self.required,
            queryable: self.queryable,
            orderable: self.orderable,
            open_choice: self.open_choice,
            choices,
            default,
            max_length: self.max_length,
            min_value: self.min_value,
            max_value: self.max_value,
        })
    }
}
