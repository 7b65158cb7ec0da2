//! One visit in a tree that is deleted: whether it fails, and what it makes of the state.
ghost use Rattle.std.specs.Prelude.{◌≡◌, ◌||◌, false, IfOk, is_none};
ghost use Rattle.std.specs.List.{list_all};
ghost use Rattle.cm_state.specs.Looks.{folders_in};
ghost use Rattle.cmis_spec.specs.Repository.{parent_in};
ghost use Rattle.cmis_spec.specs.Removal.{among};
ghost use Rattle.wr_remove.specs.Delete.{is_filled_at};
ghost use Rattle.wr_delete_tree.specs.DeleteTree.{fails, is_checked_out_at, is_deleted_by, is_folder_at, is_kept_at, is_to_go, may_not_go, treated, visit, visits};

use crate::treated::{removed, taken_out, whole};
use cm_base::access::Level;
use cm_base::number::{Moment, Oid};
use cm_base::text::Text;
use cm_map::map::Map;
use cm_removal::gone::Gone;
use cm_state::state::State;
use cm_types::definition::BaseType;
use delete_tree_parts::writes::{DeleteTree, UnfileObjects};
use std::alloc::{AllocError, Global};
use wr_filing::filing::lacks_at;
use wr_remove::delete::is_filled_at;
use wr_rules::retention::judge_all_kept;

/// A call on a tree: who makes it, when, and the numbers of the tree.
#[derive(Clone, Copy)]
pub(crate) struct View<'a> {
    pub(crate) user: &'a Text,
    pub(crate) moment: Moment,
    pub(crate) call: &'a DeleteTree,
    pub(crate) tree: &'a Gone,
}

/// How far a tree is visited: the state so far, and whether the visit has ended.
#[derive(Drop)]
pub struct Progress {
    pub state: State,
    pub ended: bool,
}

fn is_folder_at(state: &State, n: Oid) -> bool
    ensures { result ≡ is_folder_at state.now n }
{
    match state.object(n) {
        Some(x) => state.is_a(BaseType::Folder, x),
        None => false,
    }
}

fn is_checked_out_at(state: &State, n: Oid) -> bool
    ensures { result ≡ is_checked_out_at state.now n }
{
    match state.series(n) {
        Some(series) => series.working.is_some(),
        None => false,
    }
}

fn all_among(tree: &Gone, folders: &Map<u64, Oid>) -> bool
    ensures { result ≡ list_all (λ e. among tree.now e.1) folders.now }
{
    let mut all = true;
    for entry in folders.iter() {
        let at: &(u64, Oid) = entry;
        all = tree.has(at.1) && all;
    }
    all
}

// Whether all folders of the entry are in the tree.
fn is_within(state: &State, tree: &Gone, n: Oid) -> bool
    ensures { result ≡ list_all (among tree.now) (folders_in state.now n) }
{
    match state.folders(n) {
        Some(folders) => all_among(tree, folders),
        None => true,
    }
}

fn is_deleted_by(unfile_objects: UnfileObjects, within: bool) -> bool
    ensures { result ≡ is_deleted_by unfile_objects within }
{
    match unfile_objects {
        UnfileObjects::Unfile => false,
        UnfileObjects::DeleteSingleFiled => within,
        UnfileObjects::Delete => true,
    }
}

fn is_to_go(state: &State, call: &DeleteTree, tree: &Gone, n: Oid) -> bool
    ensures { result ≡ is_to_go state.now call.now tree.now n }
{
    is_folder_at(state, n) || is_deleted_by(call.unfile_objects, is_within(state, tree, n))
}

// Whether one of the documents is under a hold, or under retention at the moment. It looks at those of the series alone.
fn is_kept_at(alloc: Global, state: &State, moment: Moment, n: Oid) -> Result<bool, AllocError>
    ensures { IfOk result (λ kept. kept ≡ is_kept_at state.now moment n) }
{
    let numbers = whole(alloc, state, n)?;
    Ok(judge_all_kept(state, moment, numbers.as_slice()).is_err())
}

// Whether something is filed there, or one of the documents is kept.
fn is_filled_or_kept(
    alloc: Global,
    state: &State,
    moment: Moment,
    n: Oid,
) -> Result<bool, AllocError>
    ensures { IfOk result (λ may_not. may_not ≡ (is_filled_at state.now n || is_kept_at state.now moment n)) }
{
    if is_filled_at(state, n) {
        return Ok(true);
    }
    is_kept_at(alloc, state, moment, n)
}

fn may_not_go(
    alloc: Global,
    state: &State,
    user: &Text,
    moment: Moment,
    n: Oid,
) -> Result<bool, AllocError>
    ensures { IfOk result (λ may_not. may_not ≡ may_not_go state.now user.now moment n) }
{
    if lacks_at(state, user, Level::All, n) || is_checked_out_at(state, n) {
        return Ok(true);
    }
    is_filled_or_kept(alloc, state, moment, n)
}

fn fails(alloc: Global, state: &State, view: View<'_>, n: Oid) -> Result<bool, AllocError>
    ensures { IfOk result (λ b. b
        ≡ fails state.now view.entry.user.now view.entry.moment view.entry.call.now view.entry.tree.now n) }
{
    if is_to_go(state, view.call, view.tree, n) {
        may_not_go(alloc, state, view.user, view.moment, n)
    } else {
        Ok(lacks_at(state, view.user, Level::Write, n))
    }
}

// What stands in the tree, where that does not fail: deleted, or taken out.
fn treated(alloc: Global, state: &State, view: View<'_>, n: Oid) -> Result<State, AllocError>
    requires filed { is_none (parent_in state.now.filed n) ≡ false }
    requires able { fails state.now view.user.now view.moment view.call.now view.tree.now n ≡ false }
    ensures { IfOk result (λ s. s
        ≡ treated state.now view.entry.moment view.entry.call.now view.entry.tree.now n) }
{
    let _well = state.step();
    if is_to_go(state, view.call, view.tree, n) {
        removed(alloc, state, view.moment, n)
    } else {
        taken_out(alloc, state, view.moment, view.tree, n)
    }
}

// The next of the tree, which is filed, visited.
fn tried(alloc: Global, state: State, view: View<'_>, n: Oid) -> Result<Progress, AllocError>
    requires filed { is_none (parent_in state.filed n) ≡ false }
    ensures { IfOk result (λ p. p
        ≡ visit view.entry.user.now view.entry.moment view.entry.call.now view.entry.tree.now
        (record { state = state; ended = false }) n) }
{
    let failed = fails(alloc, &state, view, n)?;
    if failed {
        return Ok(Progress {
            state,
            ended: !view.call.continue_on_failure,
        });
    }
    let state = treated(alloc, &state, view, n)?;
    Ok(Progress {
        state,
        ended: false,
    })
}

/// The next of the tree visited, on the state so far.
pub(crate) fn visit(
    alloc: Global,
    view: View<'_>,
    progress: Progress,
    n: Oid,
) -> Result<Progress, AllocError>
    ensures { IfOk result (λ p. p
        ≡ visit view.entry.user.now view.entry.moment view.entry.call.now view.entry.tree.now progress n) }
{
    if progress.ended || progress.state.parent(n).is_none() {
        return Ok(progress);
    }
    tried(alloc, progress.state, view, n)
}

/// The state after all of the tree is visited, each on the state so far.
pub(crate) fn visits(alloc: Global, view: View<'_>, state: State) -> Result<State, AllocError>
    ensures { IfOk result (λ s. s
        ≡ visits state view.entry.user.now view.entry.moment view.entry.call.now view.entry.tree.now) }
{
    let mut progress = Progress {
        state,
        ended: false,
    };
    for n in view.tree.as_slice() {
        progress = visit(alloc, view, progress, *n)?;
    }
    Ok(progress.state)
}
