//! What is filed, named and listed for access, and goes with objects (CMIS 1.1, sections 2.1.5 and 2.1.12).
ghost use Rattle.std.specs.Prelude.{◌≡◌, ◌&&◌, not, IfOk, map, filter};
ghost use Rattle.std.specs.List.{list_any};
ghost use Rattle.cmis_spec.specs.Repository.{same};
ghost use Rattle.cmis_spec.specs.Removal.{among, each_once, entry_goes};
ghost use Rattle.cm_state.specs.Looks.{folders_in};
ghost use Rattle.cm_removal.specs.Steps.{entry_at, is_pair_of};

use crate::gone::Gone;
use crate::kept::has_left;
use cm_base::items::Items;
use cm_base::number::{Oid, Oids};
use cm_draft::draft::Draft;
use cm_map::map::Map;
use cm_state::look::entry_of;
use cm_state::state::State;
use std::alloc::{AllocError, Global};

fn entry_at(state: &State, n: Oid) -> Oid
    ensures { result ≡ entry_at state.now n }
{
    match state.object(n) {
        Some(x) => entry_of(x),
        None => n,
    }
}

fn entries_at(alloc: Global, state: &State, numbers: &[Oid]) -> Result<Oids, AllocError>
    ensures { IfOk result (λ all. all ≡ map (entry_at state.now) numbers.now) }
{
    let mut all = Items::new(alloc);
    for n in numbers {
        all.push(entry_at(state, *n))?;
    }
    Ok(all)
}

/// The entries of these objects, each once.
pub(crate) fn entries_of(alloc: Global, state: &State, numbers: &[Oid]) -> Result<Gone, AllocError>
    ensures { IfOk result (λ all. all ≡ each_once (map (entry_at state.now) numbers.now)) }
{
    let all = entries_at(alloc, state, numbers)?;
    Gone::of(alloc, all.as_slice())
}

fn goes(state: &State, gone: &Gone, n: Oid) -> bool
    ensures { result ≡ entry_goes state.now (among gone.now) n }
{
    match state.series(n) {
        Some(series) => !has_left(gone, series),
        None => gone.has(n),
    }
}

/// Those of the entries that go.
pub(crate) fn leaving(
    alloc: Global,
    state: &State,
    gone: &Gone,
    entries: &[Oid],
) -> Result<Oids, AllocError>
    ensures { IfOk result (λ all. all ≡ filter (entry_goes state.now (among gone.now)) entries.now) }
{
    let mut all = Items::new(alloc);
    for n in entries {
        if goes(state, gone, *n) {
            all.push(*n)?;
        }
    }
    Ok(all)
}

fn out_of(alloc: Global, draft: Draft, folders: &Map<u64, Oid>, n: Oid) -> Result<Draft, AllocError>
    ensures { IfOk result (λ d. d ≡ record draft {
      filed = filter
          (λ p. not (list_any (λ f. same p.folder f && same p.child n) (map (λ e. e.1) folders.now))) draft.filed;
    }) }
{
    let mut left = draft;
    for entry in folders.iter() {
        let at: &(u64, Oid) = entry;
        left = left.without_pair(alloc, at.1, n)?;
    }
    Ok(left)
}

// The child in none of its folders.
fn unfiled(alloc: Global, state: &State, draft: Draft, n: Oid) -> Result<Draft, AllocError>
    ensures { IfOk result (λ d. d ≡ record draft { filed = filter (λ p. not (is_pair_of state.now p n)) draft.filed }) }
{
    match state.folders(n) {
        Some(folders) => out_of(alloc, draft, folders, n),
        None => Ok(draft),
    }
}

/// Without the pairs of these children.
pub(crate) fn without_pairs(
    alloc: Global,
    state: &State,
    draft: Draft,
    leaving: &[Oid],
) -> Result<Draft, AllocError>
    ensures { IfOk result (λ d. d ≡ record draft {
      filed = filter
          (λ p. not (list_any (is_pair_of state.now p) leaving.now)) draft.filed;
    }) }
{
    let mut left = draft;
    for n in leaving {
        left = unfiled(alloc, state, left, *n)?;
    }
    Ok(left)
}

/// Without the access control lists of these numbers.
pub(crate) fn without_lists(
    alloc: Global,
    draft: Draft,
    leaving: &[Oid],
) -> Result<Draft, AllocError>
    ensures { IfOk result (λ d. d ≡ record draft { access = filter (λ l. not (among leaving.now l.at)) draft.access }) }
{
    let mut left = draft;
    for n in leaving {
        left = left.without_list(alloc, *n)?;
    }
    Ok(left)
}
