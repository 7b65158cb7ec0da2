//! What is filed in a folder.
ghost use Rattle.std.specs.Prelude.{◌≡◌, ◌++◌, map, IfOk, OnOk};
ghost use Rattle.std.specs.List.{flat_map};
ghost use Rattle.std.specs.Option.{option_copied};
ghost use Rattle.row_store.specs.Rows.{filed_in};
ghost use Rattle.state_rows.specs.Entries.{own_number, rows_at};

use crate::rising::rising;
use cm_base::items::Items;
use cm_base::number::{Oid, Oids};
use cm_base::object::Object;
use cm_base::series::DocumentVersion;
use cm_map::map::Map;
use cm_state::state::State;
use std::alloc::{AllocError, Global};

fn push_versions(all: &mut Oids, versions: &[DocumentVersion]) -> Result<(), AllocError>
    ensures { OnOk result (all.new ≡ all.old ++ map (λ v. v.object) versions.now) }
{
    for version in versions {
        all.push(version.object)?;
    }
    Ok(())
}

// Adds the number of the object, if it is there and in no series.
fn push_own(all: &mut Oids, x: Option<&Object>) -> Result<(), AllocError>
    ensures { OnOk result (all.new ≡ all.old ++ own_number (option_copied x.entry)) }
{
    match x {
        Some(x) => {
            if x.series.is_none() {
                all.push(x.id)?;
            }
            Ok(())
        }
        None => Ok(()),
    }
}

// Adds the versions of a series, or else the folder or item.
fn push_entry(all: &mut Oids, state: &State, n: Oid) -> Result<(), AllocError>
    ensures { OnOk result (all.new ≡ all.old ++ rows_at state.now n) }
{
    match state.series(n) {
        Some(series) => push_versions(all, series.versions.as_slice()),
        None => push_own(all, state.object(n)),
    }
}

fn gathered(alloc: Global, state: &State, entries: &Map<u64, Oid>) -> Result<Oids, AllocError>
    ensures { IfOk result (λ all. all ≡ flat_map (rows_at state.now) (map (λ e. e.1) entries.now)) }
{
    let mut all = Items::new(alloc);
    for entry in entries.iter() {
        let at: &(u64, Oid) = entry;
        push_entry(&mut all, state, at.1)?;
    }
    Ok(all)
}

/// The numbers of what is filed in the folder, rising: folders, items and all versions of series. It looks at these alone.
pub(crate) fn filed_in(alloc: Global, state: &State, folder: Oid) -> Result<Oids, AllocError>
    ensures { IfOk result (λ all. all ≡ filed_in state.now folder) }
{
    let _step = state.step();
    match state.parts().entries(folder) {
        Some(entries) => {
            let found = gathered(alloc, state, entries)?;
            let all = rising(alloc, found)?;
            Ok(all)
        }
        None => Ok(Items::new(alloc)),
    }
}
