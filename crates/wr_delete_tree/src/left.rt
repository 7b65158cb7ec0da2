//! What is left of a tree.
ghost use Rattle.std.specs.Prelude.{◌≡◌, ◌++◌, IfOk};
ghost use Rattle.std.specs.List.{list_any, filter_map};
ghost use Rattle.std.specs.Option.{option_to_list};
ghost use Rattle.cm_state.specs.Looks.{folders_in};
ghost use Rattle.cmis_spec.specs.Removal.{among};
ghost use Rattle.wr_delete_tree.specs.DeleteTree.{is_left, left_at, left_in, shown_id};

use crate::tree::rising;
use cm_base::items::Items;
use cm_base::number::{Oid, Oids};
use cm_base::object::Object;
use cm_base::text::Text;
use cm_map::map::Map;
use cm_removal::gone::Gone;
use cm_see::read::reads;
use cm_state::state::State;
use delete_tree_parts::replies::DeleteTreeReply;
use std::alloc::{AllocError, Global};

fn any_among(tree: &Gone, folders: &Map<u64, Oid>) -> bool
    ensures { result ≡ list_any (λ e. among tree.now e.1) folders.now }
{
    let mut any = false;
    for entry in folders.iter() {
        let at: &(u64, Oid) = entry;
        any = tree.has(at.1) || any;
    }
    any
}

// Whether the entry stands in a folder of the tree.
fn stands_within(state: &State, tree: &Gone, n: Oid) -> bool
    ensures { result ≡ list_any (among tree.now) (folders_in state.now n) }
{
    match state.folders(n) {
        Some(folders) => any_among(tree, folders),
        None => false,
    }
}

fn is_left(state: &State, tree: &Gone, top: Oid, n: Oid) -> bool
    ensures { result ≡ is_left state.now tree.now top n }
{
    n == top || stands_within(state, tree, n)
}

fn shown_id(state: &State, user: &Text, x: &Object) -> Option<Oid>
    ensures { result ≡ shown_id state.now user.now x.now }
{
    if reads(state, user, x) {
        Some(x.id)
    } else {
        None
    }
}

fn left_at(state: &State, user: &Text, tree: &Gone, top: Oid, n: Oid) -> Option<Oid>
    ensures { result ≡ left_at state.now user.now tree.now top n }
{
    if !is_left(state, tree, top, n) {
        return None;
    }
    match state.parts().standing(n) {
        Some(x) => shown_id(state, user, x),
        None => None,
    }
}

fn with_id(all: Oids, id: Option<Oid>) -> Result<Oids, AllocError>
    ensures { IfOk result (λ more. more ≡ all ++ option_to_list id) }
{
    let mut more = all;
    match id {
        Some(n) => {
            more.push(n)?;
            Ok(more)
        }
        None => Ok(more),
    }
}

fn all_left(
    alloc: Global,
    state: &State,
    user: &Text,
    tree: &Gone,
    top: Oid,
) -> Result<Oids, AllocError>
    ensures { IfOk result (λ all. all ≡ filter_map (left_at state.now user.now tree.now top) tree.now) }
{
    let mut all = Items::new(alloc);
    for n in tree.as_slice() {
        all = with_id(all, left_at(state, user, tree, top, *n))?;
    }
    Ok(all)
}

/// What is left of the tree and is read by the caller, by the ids of the objects, rising; none where the folder itself is gone.
pub(crate) fn left_in(
    alloc: Global,
    state: &State,
    user: &Text,
    tree: &Gone,
    top: Oid,
) -> Result<DeleteTreeReply, AllocError>
    ensures { IfOk result (λ reply. reply ≡ left_in state.now user.now tree.now top) }
{
    if state.object(top).is_none() {
        return Ok(DeleteTreeReply {
            ids: Items::new(alloc),
        });
    }
    let all = all_left(alloc, state, user, tree, top)?;
    let ids = rising(alloc, all.as_slice())?;
    Ok(DeleteTreeReply { ids })
}
