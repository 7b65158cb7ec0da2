//! What a text asks of a type: each attribute is given or not (CMIS 1.1, section 2.1.3).
//!
//! An attribute that isn't given takes a default where a type is made, and stays as it is where one is changed.
ghost use Rattle.std.specs.Prelude.{◌≡◌};

use crate::definition::ContentAllowed;
use crate::property::{Cardinality, Choices, PropertyKind, Updatability};
use crate::together::{all_four, both};
use cm_base::copies::Copies;
use cm_base::items::Items;
use cm_base::text::{Text, Texts};
use cm_base::value::Scalars;
use std::alloc::{AllocError, Global};

/// What is asked of a property definition.
#[derive(Drop)]
pub struct PropRequest {
    pub id: Text,
    pub local_name: Option<Text>,
    pub local_namespace: Option<Text>,
    pub display_name: Option<Text>,
    pub query_name: Option<Text>,
    pub description: Option<Text>,
    pub kind: PropertyKind,
    pub cardinality: Option<Cardinality>,
    pub updatability: Option<Updatability>,
    pub required: Option<bool>,
    pub queryable: Option<bool>,
    pub orderable: Option<bool>,
    pub open_choice: Option<bool>,
    pub choices: Option<Choices>,
    /// The scalars of the default value; none of them for no default.
    pub default: Option<Scalars>,
    pub max_length: Option<i64>,
    pub min_value: Option<i64>,
    pub max_value: Option<i64>,
}

/// A list of what is asked of property definitions.
pub type PropRequests = Items<PropRequest>;

/// What is asked of a type's mutability.
#[derive(Clone, Copy, Debug, PartialEq, Eq)]
pub struct MutabilityRequest {
    pub create: Option<bool>,
    pub update: Option<bool>,
    pub delete: Option<bool>,
}

/// What is asked of a type. The ids of its base and of its parent may be those of no type.
#[derive(Drop)]
pub struct TypeRequest {
    pub id: Text,
    pub base: Text,
    pub parent: Option<Text>,
    pub local_name: Option<Text>,
    pub local_namespace: Option<Text>,
    pub display_name: Option<Text>,
    pub query_name: Option<Text>,
    pub description: Option<Text>,
    pub creatable: Option<bool>,
    pub fileable: Option<bool>,
    pub queryable: Option<bool>,
    pub fulltext_indexed: Option<bool>,
    pub included_in_supertype_query: Option<bool>,
    pub controllable_policy: Option<bool>,
    pub controllable_acl: Option<bool>,
    pub mutability: MutabilityRequest,
    /// Kept of documents alone.
    pub versionable: Option<bool>,
    pub content_allowed: Option<ContentAllowed>,
    /// Kept of relationships alone.
    pub allowed_source_types: Option<Texts>,
    pub allowed_target_types: Option<Texts>,
    pub properties: PropRequests,
}

impl Copies for PropRequest {
    fn copied(&self, alloc: Global) -> Result<PropRequest, AllocError> {
        let names = all_four(
            &self.local_name,
            &self.local_namespace,
            &self.display_name,
            &self.query_name,
            alloc,
        )?;
        let first = both(&self.id, &self.description, alloc)?;
        let second = both(&self.choices, &self.default, alloc)?;
        let (local_name, local_namespace, display_name, query_name) = names.apart();
        let (id, description) = first.apart();
        let (choices, default) = second.apart();
        Ok(PropRequest {
            id,
            local_name,
            local_namespace,
            display_name,
            query_name,
            description,
            kind: self.kind,
            cardinality: self.cardinality,
            updatability: self.updatability,
            required: self.required,
            queryable: self.queryable,
            orderable: self.orderable,
            open_choice: self.open_choice,
            choices,
            default,
            max_length: self.max_length,
            min_value: self.min_value,
            max_value: self.max_value,
        })
    }
}

impl Copies for TypeRequest {
    fn copied(&self, alloc: Global) -> Result<TypeRequest, AllocError> {
        let names = all_four(
            &self.local_name,
            &self.local_namespace,
            &self.display_name,
            &self.query_name,
            alloc,
        )?;
        let first = both(&self.id, &self.base, alloc)?;
        let second = both(&self.parent, &self.description, alloc)?;
        let third = both(
            &self.allowed_source_types,
            &self.allowed_target_types,
            alloc,
        )?;
        let properties = self.properties.copied(alloc)?;
        let (local_name, local_namespace, display_name, query_name) = names.apart();
        let (id, base) = first.apart();
        let (parent, description) = second.apart();
        let (allowed_source_types, allowed_target_types) = third.apart();
        Ok(TypeRequest {
            id,
            base,
            parent,
            local_name,
            local_namespace,
            display_name,
            query_name,
            description,
            creatable: self.creatable,
            fileable: self.fileable,
            queryable: self.queryable,
            fulltext_indexed: self.fulltext_indexed,
            included_in_supertype_query: self.included_in_supertype_query,
            controllable_policy: self.controllable_policy,
            controllable_acl: self.controllable_acl,
            mutability: self.mutability,
            versionable: self.versionable,
            content_allowed: self.content_allowed,
            allowed_source_types,
            allowed_target_types,
            properties,
        })
    }
}
