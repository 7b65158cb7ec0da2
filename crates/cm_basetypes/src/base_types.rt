//! The base types, and the two secondary types of retention and holds.
ghost use Rattle.std.specs.Prelude.{◌≡◌, ◌++◌, ◌∷◌, [], IfOk, map, true, false};
ghost use Rattle.cm_types.specs.declared.definition.BaseType.TheVariants as bases;
ghost use Rattle.cm_types.specs.declared.definition.ContentAllowed.TheVariants.{NotAllowed, Allowed};
ghost use Rattle.cm_types.specs.BaseTypes.{common_props, version_props, content_props, folder_props, relationship_props, policy_props, base_def, base_row, secondary_row, retention_type, hold_type, first_types, base_types};

use crate::props::{
    common_props, document_props, folder_props, hold_props, policy_props, relationship_props,
    retention_props,
};
use cm_base::items::Items;
use cm_base::text::Text;
use cm_type_list::types::Types;
use cm_types::definition::{BaseType, ContentAllowed, TypeDef, TypeDefs, TypeMutability};
use cm_types::property::PropDefs;
use std::alloc::{AllocError, Global};
use type_requests::placed::sorted_props;

fn base_def(
    alloc: Global,
    base: BaseType,
    creatable: bool,
    fileable: bool,
    usable: bool,
    versionable: bool,
    content_allowed: ContentAllowed,
    properties: PropDefs,
) -> Result<TypeDef, AllocError>
    ensures { IfOk result (λ t. t ≡ base_def base creatable fileable usable versionable content_allowed properties) }
{
    let id = base.id();
    let sorted = sorted_props(alloc, properties.as_slice())?;
    Ok(TypeDef {
        id: Text::from_str(alloc, id)?,
        local_name: Text::from_str(alloc, id)?,
        local_namespace: Text::empty(alloc),
        display_name: Text::from_str(alloc, id)?,
        query_name: Text::from_str(alloc, id)?,
        description: Text::empty(alloc),
        base,
        parent: None,
        creatable,
        fileable,
        queryable: usable,
        fulltext_indexed: false,
        included_in_supertype_query: true,
        controllable_policy: usable,
        controllable_acl: usable,
        mutability: TypeMutability {
            create: true,
            update: false,
            delete: false,
        },
        versionable,
        content_allowed,
        allowed_source_types: Items::new(alloc),
        allowed_target_types: Items::new(alloc),
        properties: sorted,
    })
}

fn document_type(alloc: Global) -> Result<TypeDef, AllocError>
    ensures { IfOk result (λ t. t ≡ base_def bases.Document true true true true Allowed
        (common_props ++ (version_props ++ content_props))) }
{
    let properties = document_props(alloc)?;
    base_def(
        alloc,
        BaseType::Document,
        true,
        true,
        true,
        true,
        ContentAllowed::Allowed,
        properties,
    )
}

fn folder_type(alloc: Global) -> Result<TypeDef, AllocError>
    ensures { IfOk result (λ t. t ≡ base_def bases.Folder true true true false NotAllowed
        (common_props ++ folder_props)) }
{
    let properties = folder_props(alloc)?;
    base_def(
        alloc,
        BaseType::Folder,
        true,
        true,
        true,
        false,
        ContentAllowed::NotAllowed,
        properties,
    )
}

fn relationship_type(alloc: Global) -> Result<TypeDef, AllocError>
    ensures { IfOk result (λ t. t ≡ base_def bases.Relationship true false true false NotAllowed
        (common_props ++ relationship_props)) }
{
    let properties = relationship_props(alloc)?;
    base_def(
        alloc,
        BaseType::Relationship,
        true,
        false,
        true,
        false,
        ContentAllowed::NotAllowed,
        properties,
    )
}

fn policy_type(alloc: Global) -> Result<TypeDef, AllocError>
    ensures { IfOk result (λ t. t ≡ base_def bases.Policy true false true false NotAllowed
        (common_props ++ policy_props)) }
{
    let properties = policy_props(alloc)?;
    base_def(
        alloc,
        BaseType::Policy,
        true,
        false,
        true,
        false,
        ContentAllowed::NotAllowed,
        properties,
    )
}

fn item_type(alloc: Global) -> Result<TypeDef, AllocError>
    ensures { IfOk result (λ t. t ≡ base_def bases.Item true true true false NotAllowed common_props) }
{
    let properties = common_props(alloc)?;
    base_def(
        alloc,
        BaseType::Item,
        true,
        true,
        true,
        false,
        ContentAllowed::NotAllowed,
        properties,
    )
}

fn secondary_type(alloc: Global) -> Result<TypeDef, AllocError>
    ensures { IfOk result (λ t. t ≡ base_def bases.Secondary false false false false NotAllowed []) }
{
    base_def(
        alloc,
        BaseType::Secondary,
        false,
        false,
        false,
        false,
        ContentAllowed::NotAllowed,
        Items::new(alloc),
    )
}

// The row of the table with the base type.
fn type_of(alloc: Global, base: BaseType) -> Result<TypeDef, AllocError>
    ensures { IfOk result (λ t. t ≡ base_row base) }
{
    match base {
        BaseType::Document => document_type(alloc),
        BaseType::Folder => folder_type(alloc),
        BaseType::Relationship => relationship_type(alloc),
        BaseType::Policy => policy_type(alloc),
        BaseType::Item => item_type(alloc),
        BaseType::Secondary => secondary_type(alloc),
    }
}

fn table(alloc: Global, bases: &[BaseType]) -> Result<TypeDefs, AllocError>
    ensures { IfOk result (λ all. all ≡ map base_row bases.now) }
{
    let mut all = Items::new(alloc);
    for base in bases {
        let def = type_of(alloc, *base)?;
        all.push(def)?;
    }
    Ok(all)
}

// A type below cmis:secondary that is queryable.
fn secondary_row(alloc: Global, id: &str, properties: &PropDefs) -> Result<TypeDef, AllocError>
    ensures { IfOk result (λ t. t ≡ secondary_row id.now properties.now) }
{
    let top = secondary_type(alloc)?;
    let sorted = sorted_props(alloc, properties.as_slice())?;
    Ok(TypeDef {
        id: Text::from_str(alloc, id)?,
        local_name: Text::from_str(alloc, id)?,
        display_name: Text::from_str(alloc, id)?,
        query_name: Text::from_str(alloc, id)?,
        parent: Some(Text::from_str(alloc, "cmis:secondary")?),
        queryable: true,
        properties: sorted,
        ..top
    })
}

fn retention_type(alloc: Global) -> Result<TypeDef, AllocError>
    ensures { IfOk result (λ t. t ≡ retention_type) }
{
    let properties = retention_props(alloc)?;
    secondary_row(alloc, "cmis:rm_clientMgtRetention", &properties)
}

fn hold_type(alloc: Global) -> Result<TypeDef, AllocError>
    ensures { IfOk result (λ t. t ≡ hold_type) }
{
    let properties = hold_props(alloc)?;
    secondary_row(alloc, "cmis:rm_hold", &properties)
}

fn first_types(alloc: Global) -> Result<TypeDefs, AllocError>
    ensures { IfOk result (λ all. all ≡ first_types) }
{
    let bases = [
        BaseType::Document,
        BaseType::Folder,
        BaseType::Relationship,
        BaseType::Policy,
        BaseType::Item,
        BaseType::Secondary,
    ];
    let mut all = table(alloc, &bases)?;
    let retention = retention_type(alloc)?;
    all.push(retention)?;
    let hold = hold_type(alloc)?;
    all.push(hold)?;
    Ok(all)
}

/// The types with which a repository begins: the six base types and the secondary types of retention and holds, in byte
/// order of their ids (CMIS 1.1, sections 2.1.3 and 2.1.16).
pub fn base_types(alloc: Global) -> Result<Types, AllocError>
    ensures { IfOk result (λ types. types ≡ base_types) }
{
    let defs = first_types(alloc)?;
    let types = Types::from_defs(alloc, &defs)?;
    Ok(types)
}
