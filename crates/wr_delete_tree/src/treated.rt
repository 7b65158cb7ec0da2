//! What stands in a tree, deleted or taken out of it.
ghost use Rattle.std.specs.Prelude.{◌≡◌, ◌∷◌, [], ◌++◌, IfOk, filter, fold, map, unwrap_or, option_map};
ghost use Rattle.cm_state.specs.Looks.{folders_in};
ghost use Rattle.cmis_spec.specs.Removal.{among, deleted};
ghost use Rattle.cmis_spec.specs.Well.{IsWellFormed, members};
ghost use Rattle.wr_filing.specs.Filing.{out_of};
ghost use Rattle.wr_delete_tree.specs.DeleteTree.{event_document, event_object, taken_out, whole};

use cm_base::items::Items;
use cm_base::log::ChangeKind;
use cm_base::number::{Moment, Oid, Oids};
use cm_base::series::Series;
use cm_draft::draft::Draft;
use cm_map::map::Map;
use cm_removal::deleted::deleted;
use cm_removal::gone::Gone;
use cm_state::state::State;
use std::alloc::{AllocError, Global};
use wr_remove::members::{members, only};

// ---- deleted

/// A series with all its documents, or a folder or an item alone.
pub(crate) fn whole(alloc: Global, state: &State, n: Oid) -> Result<Oids, AllocError>
    ensures { IfOk result (λ all. all ≡ whole state.now n) }
{
    match state.series(n) {
        Some(series) => members(alloc, series),
        None => only(alloc, n),
    }
}

/// The state without the series, the folder or the item, and what goes with it.
pub(crate) fn removed(
    alloc: Global,
    state: &State,
    moment: Moment,
    n: Oid,
) -> Result<State, AllocError>
    requires well { IsWellFormed (deleted state.now moment (whole state.now n)) }
    ensures { IfOk result (λ s. s ≡ deleted state.now moment (whole state.now n)) }
{
    let numbers = whole(alloc, state, n)?;
    let draft = deleted(alloc, state, moment, numbers.as_slice())?;
    Ok(draft.seal())
}

// ---- taken out

fn push_among(all: Oids, tree: &Gone, n: Oid) -> Result<Oids, AllocError>
    ensures { IfOk result (λ more. more ≡ all ++ filter (among tree.now) (n ∷ [])) }
{
    let mut more = all;
    if tree.has(n) {
        more.push(n)?;
    }
    Ok(more)
}

fn kept(alloc: Global, tree: &Gone, folders: &Map<u64, Oid>) -> Result<Oids, AllocError>
    ensures { IfOk result (λ all. all ≡ filter (among tree.now) (map (λ e. e.1) folders.now)) }
{
    let mut all = Items::new(alloc);
    for entry in folders.iter() {
        let at: &(u64, Oid) = entry;
        all = push_among(all, tree, at.1)?;
    }
    Ok(all)
}

// Those of the entry's folders that are in the tree.
fn folders_among(alloc: Global, state: &State, tree: &Gone, n: Oid) -> Result<Oids, AllocError>
    ensures { IfOk result (λ all. all ≡ filter (among tree.now) (folders_in state.now n)) }
{
    match state.folders(n) {
        Some(folders) => kept(alloc, tree, folders),
        None => Ok(Items::new(alloc)),
    }
}

fn event_document(series: &Series) -> Option<Oid>
    ensures { result ≡ event_document series.now }
{
    match series.versions.as_slice().last() {
        Some(version) => Some(version.object),
        None => match &series.working {
            Some(working) => Some(working.copy),
            None => None,
        },
    }
}

fn event_object(state: &State, n: Oid) -> Oid
    ensures { result ≡ event_object state.now n }
{
    match state.series(n) {
        Some(series) => match event_document(series) {
            Some(document) => document,
            None => n,
        },
        None => n,
    }
}

// The draft without the entry in these folders.
fn out_of(alloc: Global, draft: Draft, folders: &[Oid], n: Oid) -> Result<Draft, AllocError>
    ensures { IfOk result (λ d. d ≡ fold (out_of n) draft folders.now) }
{
    let mut left = draft;
    for folder in folders {
        left = left.without_pair(alloc, *folder, n)?;
    }
    Ok(left)
}

/// The state with the series or the item in no folder of the tree, and the event that tells of it.
pub(crate) fn taken_out(
    alloc: Global,
    state: &State,
    moment: Moment,
    tree: &Gone,
    n: Oid,
) -> Result<State, AllocError>
    requires well { IsWellFormed (taken_out state.now moment tree.now n) }
    ensures { IfOk result (λ s. s ≡ taken_out state.now moment tree.now n) }
{
    let folders = folders_among(alloc, state, tree, n)?;
    let begun = Draft::of(alloc, state)?;
    let out = out_of(alloc, begun, folders.as_slice(), n)?;
    let named = event_object(state, n);
    let told = out.noted(alloc, ChangeKind::Updated, named, moment, Items::new(alloc))?;
    Ok(told.seal())
}
