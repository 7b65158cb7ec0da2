//! The tree below a folder, in the order in which it is visited.
ghost use Rattle.std.specs.Prelude.{◌≡◌, [], ◌∷◌, ◌++◌, IfOk, fold, map};
ghost use Rattle.core.specs.Ordering.{nat_cmp};
ghost use Rattle.cm_map.specs.Sets.{with_key};
ghost use Rattle.cm_state.specs.Looks.{entries_in};
ghost use Rattle.wr_delete_tree.specs.DeleteTree.{rising, tree_of, visited};

use cm_base::items::Items;
use cm_base::number::{Oid, Oids};
use cm_map::map::Map;
use cm_map::set::Set;
use cm_removal::gone::Gone;
use cm_see::tree::levels_up;
use cm_state::state::State;
use std::alloc::{AllocError, Global};

fn set_of(alloc: Global, numbers: &[Oid]) -> Result<Set<u64>, AllocError>
    ensures { IfOk result (λ s. s ≡ fold (λ ks n. with_key nat_cmp ks n.0) [] numbers.now) }
{
    let mut all = Set::empty(alloc);
    for n in numbers {
        all = all.with(alloc, n.0)?;
    }
    Ok(all)
}

fn numbers_of(alloc: Global, all: &Set<u64>) -> Result<Oids, AllocError>
    ensures { IfOk result (λ ns. ns ≡ map (λ k. record { 0 = k }) all.now) }
{
    let mut numbers = Items::new(alloc);
    for entry in all.iter() {
        numbers.push(Oid(entry.0))?;
    }
    Ok(numbers)
}

/// The numbers in their order, each once.
pub(crate) fn rising(alloc: Global, numbers: &[Oid]) -> Result<Oids, AllocError>
    ensures { IfOk result (λ ns. ns ≡ rising numbers.now) }
{
    let all = set_of(alloc, numbers)?;
    let numbers = numbers_of(alloc, &all)?;
    Ok(numbers)
}

fn values_of(alloc: Global, entries: &Map<u64, Oid>) -> Result<Oids, AllocError>
    ensures { IfOk result (λ all. all ≡ map (λ e. e.1) entries.now) }
{
    let mut all = Items::new(alloc);
    for entry in entries.iter() {
        let at: &(u64, Oid) = entry;
        all.push(at.1)?;
    }
    Ok(all)
}

fn values_rising(alloc: Global, entries: &Map<u64, Oid>) -> Result<Oids, AllocError>
    ensures { IfOk result (λ all. all ≡ rising (map (λ e. e.1) entries.now)) }
{
    let values = values_of(alloc, entries)?;
    let all = rising(alloc, values.as_slice())?;
    Ok(all)
}

// The children of a folder in the order of their numbers.
fn children(alloc: Global, state: &State, n: Oid) -> Result<Oids, AllocError>
    ensures { IfOk result (λ all. all ≡ rising (entries_in state.now n)) }
{
    match state.parts().entries(n) {
        Some(entries) => values_rising(alloc, entries),
        None => Ok(Items::new(alloc)),
    }
}

fn pushed(all: Oids, n: Oid) -> Result<Oids, AllocError>
    ensures { IfOk result (λ more. more ≡ all ++ n ∷ []) }
{
    let mut more = all;
    more.push(n)?;
    Ok(more)
}

// The list with these behind it, each behind what stands below it, so many levels in all.
fn with_visited(
    alloc: Global,
    state: &State,
    levels: u64,
    all: Oids,
    numbers: &[Oid],
) -> Result<Oids, AllocError>
    ensures { IfOk result (λ more. more ≡ all ++ visited levels state.now numbers.now) }
{
    if levels == 0 {
        return Ok(all);
    }
    let mut more = all;
    for n in numbers {
        let children = children(alloc, state, *n)?;
        let below = with_visited(alloc, state, levels - 1, more, children.as_slice())?;
        more = pushed(below, *n)?;
    }
    Ok(more)
}

/// The tree below the folder, and the folder last, each once. It goes through what is filed in the tree alone.
pub(crate) fn tree_of(alloc: Global, state: &State, folder: Oid) -> Result<Gone, AllocError>
    ensures { IfOk result (λ tree. tree ≡ tree_of state.now folder) }
{
    let top = pushed(Items::new(alloc), folder)?;
    let all = with_visited(alloc, state, levels_up(), Items::new(alloc), top.as_slice())?;
    Gone::of(alloc, all.as_slice())
}
