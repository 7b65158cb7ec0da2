//! The versions of a document (CMIS 1.1, section 2.2.7.6).
ghost use Rattle.std.specs.Prelude.{◌≡◌, ◌++◌, IfOk, OnOk, map};
ghost use Rattle.std.specs.List.{filter_map};
ghost use Rattle.cm_map.specs.Parts.{pointee};
ghost use Rattle.cmis_spec.specs.Access.{read_at};
ghost use Rattle.cmis_spec.specs.Well.{copy_in};
ghost use Rattle.rd_lists.specs.Versions.{latest_first, versions_of};

use crate::number::read_among;
use cm_base::number::Oid;
use cm_base::object::Object;
use cm_base::series::{DocumentVersion, Series};
use cm_base::text::Text;
use cm_state::state::State;
use std::alloc::{AllocError, Global};

fn numbers_of(alloc: Global, versions: &[DocumentVersion]) -> Result<Vec<Oid>, AllocError>
    ensures { IfOk result (λ all. all.items ≡ map (λ v. v.object) versions.now) }
{
    let mut all = Vec::new(alloc);
    for version in versions {
        all.push(version.object)?;
    }
    Ok(all)
}

fn push_copy(all: &mut Vec<Oid>, series: &Series) -> Result<(), AllocError>
    ensures { OnOk result (all.new.items ≡ all.old.items ++ copy_in series.now) }
{
    match &series.working {
        Some(working) => {
            all.push(working.copy)?;
            Ok(())
        }
        None => Ok(()),
    }
}

fn latest_first(alloc: Global, series: &Series) -> Result<Vec<Oid>, AllocError>
    ensures { IfOk result (λ all. all.items ≡ latest_first series.now) }
{
    let mut all = numbers_of(alloc, series.versions.as_slice())?;
    push_copy(&mut all, series)?;
    all.reverse();
    Ok(all)
}

fn versions_in<'a>(
    alloc: Global,
    state: &'a State,
    user: &Text,
    series: &Series,
) -> Result<Vec<&'a Object>, AllocError>
    ensures { IfOk result (λ all. map pointee all.items
        ≡ filter_map (read_at state.now user.now) (latest_first series.now)) }
{
    let numbers = latest_first(alloc, series)?;
    let all = read_among(alloc, state, user, &numbers)?;
    Ok(all)
}

/// The working copy of the document's series, where the caller reads it, and then the versions that he reads from the latest to the
/// first. Any version names its series; what is no document has none.
pub fn versions_of<'a>(
    alloc: Global,
    state: &'a State,
    user: &Text,
    x: &Object,
) -> Result<Vec<&'a Object>, AllocError>
    ensures { IfOk result (λ all. map pointee all.items ≡ versions_of state.now user.now x.now) }
{
    match state.series_of(x) {
        Some(series) => {
            let all = versions_in(alloc, state, user, series)?;
            Ok(all)
        }
        None => Ok(Vec::new(alloc)),
    }
}
