//! The documents of a version series.
ghost use Rattle.std.specs.Prelude.{◌≡◌, [], ◌∷◌, ◌++◌, IfOk, map, unwrap_or, option_map};
ghost use Rattle.cmis_spec.specs.Well.{members};

use cm_base::items::Items;
use cm_base::number::{Oid, Oids};
use cm_base::series::{DocumentVersion, Series, WorkingCopy};
use std::alloc::{AllocError, Global};

/// The list of one number.
pub fn only(alloc: Global, n: Oid) -> Result<Oids, AllocError>
    ensures { IfOk result (λ all. all ≡ n ∷ []) }
{
    let mut all = Items::new(alloc);
    all.push(n)?;
    Ok(all)
}

fn versions_of(alloc: Global, versions: &[DocumentVersion]) -> Result<Oids, AllocError>
    ensures { IfOk result (λ all. all ≡ map (λ v. v.object) versions.now) }
{
    let mut all = Items::new(alloc);
    for version in versions {
        all.push(version.object)?;
    }
    Ok(all)
}

fn with_copy(all: Oids, working: &Option<WorkingCopy>) -> Result<Oids, AllocError>
    ensures { IfOk result (λ more. more ≡ all ++ unwrap_or (option_map (λ w. w.copy ∷ []) working.now) []) }
{
    let mut more = all;
    match working {
        Some(working) => {
            more.push(working.copy)?;
            Ok(more)
        }
        None => Ok(more),
    }
}

/// The versions of a series and its working copy.
pub fn members(alloc: Global, series: &Series) -> Result<Oids, AllocError>
    ensures { IfOk result (λ all. all ≡ members series.now) }
{
    let versions = versions_of(alloc, series.versions.as_slice())?;
    let all = with_copy(versions, &series.working)?;
    Ok(all)
}
