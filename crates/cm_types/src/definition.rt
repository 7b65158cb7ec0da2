//! Definitions of types (CMIS 1.1, section 2.1.3.2).
ghost use Rattle.std.specs.Prelude.{◌≡◌};
ghost use Rattle.cm_types.specs.Changes.{base_id};

use crate::property::PropDefs;
use crate::together::{all_four, both};
use cm_base::copies::Copies;
use cm_base::items::Items;
use cm_base::text::{Text, Texts};
use std::alloc::{AllocError, Global};

/// The base types.
#[derive(Clone, Copy, Debug, PartialEq, Eq)]
pub enum BaseType {
    Document,
    Folder,
    Relationship,
    Policy,
    Item,
    Secondary,
}

impl BaseType {
    /// The id of the base type.
    pub fn id(self) -> &'static str
        ensures { result.now ≡ base_id self }
    {
        match self {
            BaseType::Document => "cmis:document",
            BaseType::Folder => "cmis:folder",
            BaseType::Relationship => "cmis:relationship",
            BaseType::Policy => "cmis:policy",
            BaseType::Item => "cmis:item",
            BaseType::Secondary => "cmis:secondary",
        }
    }
}

/// Whether a document may, must or must not have content.
#[derive(Clone, Copy, Debug, PartialEq, Eq)]
pub enum ContentAllowed {
    NotAllowed,
    Allowed,
    Required,
}

/// What may be done with a type.
#[derive(Clone, Copy, Debug, PartialEq, Eq)]
pub struct TypeMutability {
    pub create: bool,
    pub update: bool,
    pub delete: bool,
}

/// The definition of a type, with its own property definitions alone. A base type has no parent.
#[derive(Drop)]
pub struct TypeDef {
    pub id: Text,
    pub local_name: Text,
    pub local_namespace: Text,
    pub display_name: Text,
    pub query_name: Text,
    pub description: Text,
    pub base: BaseType,
    pub parent: Option<Text>,
    pub creatable: bool,
    pub fileable: bool,
    pub queryable: bool,
    pub fulltext_indexed: bool,
    pub included_in_supertype_query: bool,
    pub controllable_policy: bool,
    pub controllable_acl: bool,
    pub mutability: TypeMutability,
    /// Of documents.
    pub versionable: bool,
    pub content_allowed: ContentAllowed,
    /// Of relationships; empty for any.
    pub allowed_source_types: Texts,
    pub allowed_target_types: Texts,
    pub properties: PropDefs,
}

/// A list of definitions of types.
pub type TypeDefs = Items<TypeDef>;

impl Copies for TypeDef {
    fn copied(&self, alloc: Global) -> Result<TypeDef, AllocError> {
        let names = all_four(
            &self.local_name,
            &self.local_namespace,
            &self.display_name,
            &self.query_name,
            alloc,
        )?;
        let first = both(&self.id, &self.description, alloc)?;
        let second = both(&self.parent, &self.properties, alloc)?;
        let third = both(
            &self.allowed_source_types,
            &self.allowed_target_types,
            alloc,
        )?;
        let (local_name, local_namespace, display_name, query_name) = names.apart();
        let (id, description) = first.apart();
        let (parent, properties) = second.apart();
        let (allowed_source_types, allowed_target_types) = third.apart();
        Ok(TypeDef {
            id,
            local_name,
            local_namespace,
            display_name,
            query_name,
            description,
            base: self.base,
            parent,
            creatable: self.creatable,
            fileable: self.fileable,
            queryable: self.queryable,
            fulltext_indexed: self.fulltext_indexed,
            included_in_supertype_query: self.included_in_supertype_query,
            controllable_policy: self.controllable_policy,
            controllable_acl: self.controllable_acl,
            mutability: self.mutability,
            versionable: self.versionable,
            content_allowed: self.content_allowed,
            allowed_source_types,
            allowed_target_types,
            properties,
        })
    }
}
