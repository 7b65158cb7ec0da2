//! The series of which a part goes with objects.
ghost use Rattle.std.specs.Prelude.{◌≡◌, not, if◌then◌else◌, IfOk, filter, None, Some, false, unwrap_or, option_map, option_and_then};
ghost use Rattle.std.specs.List.{list_any};
ghost use Rattle.cmis_spec.specs.Removal.{left_in, has_members, among};

use crate::gone::Gone;
use cm_base::copies::Copies;
use cm_base::items::Items;
use cm_base::series::{DocumentVersion, DocumentVersions, Series, WorkingCopy};
use std::alloc::{AllocError, Global};

fn any_left(gone: &Gone, versions: &[DocumentVersion]) -> bool
    ensures { result ≡ list_any (λ v. not (among gone.now v.object)) versions.now }
{
    versions.iter().any(|v| !gone.has(v.object))
}

fn copy_left(gone: &Gone, working: &Option<WorkingCopy>) -> bool
    ensures { result ≡ unwrap_or (option_map (λ c. not (among gone.now c.copy)) working.now) false }
{
    match working {
        Some(working) => !gone.has(working.copy),
        None => false,
    }
}

/// Whether the series keeps a document.
pub(crate) fn has_left(gone: &Gone, series: &Series) -> bool
    ensures { result ≡ has_members (left_in (among gone.now) series.now) }
{
    any_left(gone, series.versions.as_slice()) || copy_left(gone, &series.working)
}

fn versions_left(
    alloc: Global,
    gone: &Gone,
    versions: &[DocumentVersion],
) -> Result<DocumentVersions, AllocError>
    ensures { IfOk result (λ all. all ≡ filter (λ v. not (among gone.now v.object)) versions.now) }
{
    let mut all = Items::new(alloc);
    for version in versions {
        if !gone.has(version.object) {
            all.push(*version)?;
        }
    }
    Ok(all)
}

fn working_left(
    alloc: Global,
    gone: &Gone,
    working: &Option<WorkingCopy>,
) -> Result<Option<WorkingCopy>, AllocError>
    ensures { IfOk result (λ w. w ≡ option_and_then (λ c. if among gone.now c.copy then None else Some c) working.now) }
{
    match working {
        Some(working) if !gone.has(working.copy) => Ok(Some(working.copied(alloc)?)),
        _ => Ok(None),
    }
}

/// The series with the documents that stay.
pub(crate) fn left_in(alloc: Global, gone: &Gone, series: &Series) -> Result<Series, AllocError>
    ensures { IfOk result (λ s. s ≡ left_in (among gone.now) series.now) }
{
    let versions = versions_left(alloc, gone, series.versions.as_slice())?;
    let working = working_left(alloc, gone, &series.working)?;
    Ok(Series {
        id: series.id,
        name: series.name.copied(alloc)?,
        versions,
        working,
    })
}
