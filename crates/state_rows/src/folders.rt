//! The folders of an object, and those above them.
ghost use Rattle.std.specs.Prelude.{◌≡◌, ◌++◌, ◌-◌, [], ◌∷◌, filter, map, IfOk, OnOk};
ghost use Rattle.std.specs.List.{flat_map};
ghost use Rattle.cmis_spec.specs.Repository.{folders_up, upwards};
ghost use Rattle.cmis_spec.specs.Access.{parents_of};
ghost use Rattle.cmis_spec.specs.Seen.{is_read};

use crate::rising::rising;
use cm_base::items::Items;
use cm_base::number::{Oid, Oids};
use cm_base::text::Text;
use cm_map::map::Map;
use cm_see::read::read_at;
use cm_see::tree::levels_up;
use cm_state::state::State;
use std::alloc::{AllocError, Global};

// Adds the number where the user reads the object that has it.
fn push_read(all: &mut Oids, state: &State, user: &Text, n: Oid) -> Result<(), AllocError>
    ensures { OnOk result (all.new ≡ all.old ++ filter (is_read state.now user.now) (n ∷ [])) }
{
    if read_at(state, user, n).is_some() {
        all.push(n)?;
    }
    Ok(())
}

// Of these folders, those that the user reads.
fn read_among(
    alloc: Global,
    state: &State,
    user: &Text,
    folders: &Map<u64, Oid>,
) -> Result<Oids, AllocError>
    ensures { IfOk result (λ all. all ≡ filter (is_read state.now user.now) (map (λ e. e.1) folders.now)) }
{
    let mut all = Items::new(alloc);
    for entry in folders.iter() {
        let at: &(u64, Oid) = entry;
        push_read(&mut all, state, user, at.1)?;
    }
    Ok(all)
}

/// The folders that the user reads in which the entry is filed, by number.
pub(crate) fn parents_of(
    alloc: Global,
    state: &State,
    user: &Text,
    n: Oid,
) -> Result<Oids, AllocError>
    ensures { IfOk result (λ all. all ≡ map (λ f. f.id) (parents_of state.now user.now n)) }
{
    let _step = state.step();
    match state.folders(n) {
        Some(folders) => {
            let read = read_among(alloc, state, user, folders)?;
            let all = rising(alloc, read)?;
            Ok(all)
        }
        None => Ok(Items::new(alloc)),
    }
}

// Adds the folder, and so many above it.
fn push_upwards(all: &mut Oids, state: &State, levels: u64, folder: Oid) -> Result<(), AllocError>
    ensures { OnOk result (all.new ≡ all.old ++ upwards levels state.now.filed folder) }
{
    if levels == 0 {
        return Ok(());
    }
    all.push(folder)?;
    match state.parent(folder) {
        Some(above) => push_upwards(all, state, levels - 1, above),
        None => Ok(()),
    }
}

/// The folders and all above each of them.
pub(crate) fn all_above(alloc: Global, state: &State, folders: &[Oid]) -> Result<Oids, AllocError>
    ensures { IfOk result (λ all. all ≡ flat_map (folders_up state.now) folders.now) }
{
    let mut all = Items::new(alloc);
    for folder in folders {
        push_upwards(&mut all, state, levels_up(), *folder)?;
    }
    Ok(all)
}
