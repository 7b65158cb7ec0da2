//! The working copy of a series, and its name.
ghost use Rattle.std.specs.Prelude.{◌≡◌, IfOk};
ghost use Rattle.cmis_spec.specs.Documents.{is_copy_of, checked_out, checked_in};
ghost use Rattle.cm_series.specs.Series.{under_name};

use cm_base::copies::Copies;
use cm_base::number::Oid;
use cm_base::series::{DocumentVersion, Label, Series, WorkingCopy};
use cm_base::text::Text;
use std::alloc::{AllocError, Global};

/// Whether the object of this number is the working copy of the series. Takes no memory.
pub fn is_copy_of(series: &Series, n: Oid) -> bool
    ensures { result ≡ is_copy_of series.now n }
{
    match &series.working {
        Some(working) => working.copy == n,
        None => false,
    }
}

/// The series as its owner checked it out.
pub fn check_out(
    alloc: Global,
    series: &Series,
    copy: Oid,
    owner: &Text,
) -> Result<Series, AllocError>
    ensures { IfOk result (λ s. s ≡ checked_out copy owner.now series.now) }
{
    Ok(Series {
        id: series.id,
        name: series.name.copied(alloc)?,
        versions: series.versions.copied(alloc)?,
        working: Some(WorkingCopy {
            copy,
            owner: owner.copied(alloc)?,
        }),
    })
}

/// The series whose working copy is its latest version, under this label and name.
pub fn check_in(
    alloc: Global,
    series: &Series,
    copy: Oid,
    label: Label,
    name: Text,
) -> Result<Series, AllocError>
    ensures { IfOk result (λ s. s ≡ checked_in copy label name series.now) }
{
    let mut versions = series.versions.copied(alloc)?;
    versions.push(DocumentVersion {
        object: copy,
        label: Some(label),
    })?;
    Ok(Series {
        id: series.id,
        name,
        versions,
        working: None,
    })
}

/// The series under another name.
pub fn rename(alloc: Global, series: &Series, name: Text) -> Result<Series, AllocError>
    ensures { IfOk result (λ s. s ≡ under_name name series.now) }
{
    Ok(Series {
        id: series.id,
        name,
        versions: series.versions.copied(alloc)?,
        working: Copies::copied(&series.working, alloc)?,
    })
}
