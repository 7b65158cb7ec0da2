//! The properties of the base types, and of the types of retention and holds.
ghost use Rattle.std.specs.Prelude.{◌≡◌, ◌++◌, IfOk, OnOk, map};
ghost use Rattle.cm_types.specs.Changes.{is_single};
ghost use Rattle.cm_types.specs.BaseTypes.{prop, common_props, version_props, content_props, folder_props, relationship_props, policy_props, retention_props, hold_props};

use cm_base::items::Items;
use cm_base::text::Text;
use cm_base::value::Value;
use cm_types::property::{Cardinality, PropDef, PropDefs, PropertyKind, Updatability};
use std::alloc::{AllocError, Global};

type Row<'a> = (&'a str, PropertyKind, Cardinality, Updatability, bool, bool);

fn is_single(cardinality: Cardinality) -> bool
    ensures { result ≡ is_single cardinality }
{
    match cardinality {
        Cardinality::Single => true,
        Cardinality::Multi => false,
    }
}

fn prop(
    alloc: Global,
    id: &str,
    kind: PropertyKind,
    cardinality: Cardinality,
    updatability: Updatability,
    required: bool,
    queryable: bool,
) -> Result<PropDef, AllocError>
    ensures { IfOk result (λ d. d ≡ prop id.now kind cardinality updatability required queryable) }
{
    Ok(PropDef {
        id: Text::from_str(alloc, id)?,
        local_name: Text::from_str(alloc, id)?,
        local_namespace: Text::empty(alloc),
        display_name: Text::from_str(alloc, id)?,
        query_name: Text::from_str(alloc, id)?,
        description: Text::empty(alloc),
        kind,
        cardinality,
        updatability,
        required,
        queryable,
        orderable: queryable && is_single(cardinality),
        open_choice: true,
        choices: Items::new(alloc),
        default: Value::Unset,
        max_length: None,
        min_value: None,
        max_value: None,
    })
}

fn add_rows(alloc: Global, all: &mut PropDefs, rows: &[Row]) -> Result<(), AllocError>
    ensures { OnOk result (all.new ≡ all.old ++ map (λ r. prop r.0.now r.1 r.2 r.3 r.4 r.5) rows.now) }
{
    for (id, kind, cardinality, updatability, required, queryable) in rows {
        let def = prop(
            alloc,
            *id,
            *kind,
            *cardinality,
            *updatability,
            *required,
            *queryable,
        )?;
        all.push(def)?;
    }
    Ok(())
}

/// The properties of all objects.
pub fn common_props(alloc: Global) -> Result<PropDefs, AllocError>
    ensures { IfOk result (λ all. all ≡ common_props) }
{
    use Cardinality::{Multi, Single};
    use PropertyKind::{Datetime, Id, String};
    use Updatability::{OnCreate, ReadOnly, ReadWrite};
    let mut all = Items::new(alloc);
    let rows = [
        ("cmis:name", String, Single, ReadWrite, true, true),
        ("cmis:description", String, Single, ReadWrite, false, true),
        ("cmis:objectId", Id, Single, ReadOnly, false, true),
        ("cmis:baseTypeId", Id, Single, ReadOnly, false, true),
        ("cmis:objectTypeId", Id, Single, OnCreate, true, true),
        (
            "cmis:secondaryObjectTypeIds",
            Id,
            Multi,
            ReadWrite,
            false,
            true,
        ),
        ("cmis:createdBy", String, Single, ReadOnly, false, true),
        ("cmis:creationDate", Datetime, Single, ReadOnly, false, true),
        ("cmis:lastModifiedBy", String, Single, ReadOnly, false, true),
        (
            "cmis:lastModificationDate",
            Datetime,
            Single,
            ReadOnly,
            false,
            true,
        ),
        ("cmis:changeToken", String, Single, ReadOnly, false, true),
    ];
    add_rows(alloc, &mut all, &rows)?;
    Ok(all)
}

fn add_version_props(alloc: Global, all: &mut PropDefs) -> Result<(), AllocError>
    ensures { OnOk result (all.new ≡ all.old ++ version_props) }
{
    use Cardinality::Single;
    use PropertyKind::{Boolean, Id, String};
    use Updatability::ReadOnly;
    let rows = [
        ("cmis:isImmutable", Boolean, Single, ReadOnly, false, true),
        (
            "cmis:isLatestVersion",
            Boolean,
            Single,
            ReadOnly,
            false,
            true,
        ),
        (
            "cmis:isMajorVersion",
            Boolean,
            Single,
            ReadOnly,
            false,
            true,
        ),
        (
            "cmis:isLatestMajorVersion",
            Boolean,
            Single,
            ReadOnly,
            false,
            true,
        ),
        (
            "cmis:isPrivateWorkingCopy",
            Boolean,
            Single,
            ReadOnly,
            false,
            true,
        ),
        ("cmis:versionLabel", String, Single, ReadOnly, false, true),
        ("cmis:versionSeriesId", Id, Single, ReadOnly, false, true),
        (
            "cmis:isVersionSeriesCheckedOut",
            Boolean,
            Single,
            ReadOnly,
            false,
            true,
        ),
        (
            "cmis:versionSeriesCheckedOutBy",
            String,
            Single,
            ReadOnly,
            false,
            true,
        ),
        (
            "cmis:versionSeriesCheckedOutId",
            Id,
            Single,
            ReadOnly,
            false,
            true,
        ),
        ("cmis:checkinComment", String, Single, ReadOnly, false, true),
    ];
    add_rows(alloc, all, &rows)
}

fn add_content_props(alloc: Global, all: &mut PropDefs) -> Result<(), AllocError>
    ensures { OnOk result (all.new ≡ all.old ++ content_props) }
{
    use Cardinality::Single;
    use PropertyKind::{Id, Integer, String};
    use Updatability::ReadOnly;
    let rows = [
        (
            "cmis:contentStreamLength",
            Integer,
            Single,
            ReadOnly,
            false,
            true,
        ),
        (
            "cmis:contentStreamMimeType",
            String,
            Single,
            ReadOnly,
            false,
            true,
        ),
        (
            "cmis:contentStreamFileName",
            String,
            Single,
            ReadOnly,
            false,
            true,
        ),
        ("cmis:contentStreamId", Id, Single, ReadOnly, false, true),
    ];
    add_rows(alloc, all, &rows)
}

/// The properties of documents.
pub fn document_props(alloc: Global) -> Result<PropDefs, AllocError>
    ensures { IfOk result (λ all. all ≡ common_props ++ (version_props ++ content_props)) }
{
    let mut all = common_props(alloc)?;
    add_version_props(alloc, &mut all)?;
    add_content_props(alloc, &mut all)?;
    Ok(all)
}

fn add_folder_props(alloc: Global, all: &mut PropDefs) -> Result<(), AllocError>
    ensures { OnOk result (all.new ≡ all.old ++ folder_props) }
{
    use Cardinality::{Multi, Single};
    use PropertyKind::{Id, String};
    use Updatability::{OnCreate, ReadOnly};
    let rows = [
        ("cmis:parentId", Id, Single, ReadOnly, false, true),
        ("cmis:path", String, Single, ReadOnly, false, false),
        (
            "cmis:allowedChildObjectTypeIds",
            Id,
            Multi,
            OnCreate,
            false,
            false,
        ),
    ];
    add_rows(alloc, all, &rows)
}

/// The properties of folders.
pub fn folder_props(alloc: Global) -> Result<PropDefs, AllocError>
    ensures { IfOk result (λ all. all ≡ common_props ++ folder_props) }
{
    let mut all = common_props(alloc)?;
    add_folder_props(alloc, &mut all)?;
    Ok(all)
}

fn add_relationship_props(alloc: Global, all: &mut PropDefs) -> Result<(), AllocError>
    ensures { OnOk result (all.new ≡ all.old ++ relationship_props) }
{
    use Cardinality::Single;
    use PropertyKind::Id;
    use Updatability::OnCreate;
    let rows = [
        ("cmis:sourceId", Id, Single, OnCreate, true, true),
        ("cmis:targetId", Id, Single, OnCreate, true, true),
    ];
    add_rows(alloc, all, &rows)
}

/// The properties of relationships.
pub fn relationship_props(alloc: Global) -> Result<PropDefs, AllocError>
    ensures { IfOk result (λ all. all ≡ common_props ++ relationship_props) }
{
    let mut all = common_props(alloc)?;
    add_relationship_props(alloc, &mut all)?;
    Ok(all)
}

fn add_policy_props(alloc: Global, all: &mut PropDefs) -> Result<(), AllocError>
    ensures { OnOk result (all.new ≡ all.old ++ policy_props) }
{
    use Cardinality::Single;
    use PropertyKind::String;
    use Updatability::ReadWrite;
    let rows = [("cmis:policyText", String, Single, ReadWrite, false, true)];
    add_rows(alloc, all, &rows)
}

/// The properties of policies.
pub fn policy_props(alloc: Global) -> Result<PropDefs, AllocError>
    ensures { IfOk result (λ all. all ≡ common_props ++ policy_props) }
{
    let mut all = common_props(alloc)?;
    add_policy_props(alloc, &mut all)?;
    Ok(all)
}

/// The properties of what is under retention (CMIS 1.1, section 2.1.16.1).
pub fn retention_props(alloc: Global) -> Result<PropDefs, AllocError>
    ensures { IfOk result (λ all. all ≡ retention_props) }
{
    use Cardinality::Single;
    use PropertyKind::Datetime;
    use Updatability::ReadWrite;
    let mut all = Items::new(alloc);
    let rows = [
        (
            "cmis:rm_expirationDate",
            Datetime,
            Single,
            ReadWrite,
            false,
            true,
        ),
        (
            "cmis:rm_startOfRetention",
            Datetime,
            Single,
            ReadWrite,
            false,
            true,
        ),
    ];
    add_rows(alloc, &mut all, &rows)?;
    Ok(all)
}

/// The properties of what is under hold (CMIS 1.1, section 2.1.16.2).
pub fn hold_props(alloc: Global) -> Result<PropDefs, AllocError>
    ensures { IfOk result (λ all. all ≡ hold_props) }
{
    use Cardinality::Multi;
    use PropertyKind::String;
    use Updatability::ReadWrite;
    let mut all = Items::new(alloc);
    let rows = [("cmis:rm_holdIds", String, Multi, ReadWrite, false, true)];
    add_rows(alloc, &mut all, &rows)?;
    Ok(all)
}
