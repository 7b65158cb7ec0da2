//! deleteTree (CMIS 1.1, section 2.2.4.17).
ghost use Rattle.std.specs.Prelude.{◌≡◌, ◌+◌, ◌<◌, ◌^◌, IfOk};
ghost use Rattle.cm_base.specs.Judged.{Writes};
ghost use Rattle.cm_see.specs.Addressed.{addressed};
ghost use Rattle.cmis_spec.specs.Changes.{stepped};
ghost use Rattle.cmis_spec.specs.Well.{IsWellFormed};
ghost use Rattle.wr_rules.specs.Found.{Finds};
ghost use Rattle.wr_delete_tree.specs.DeleteTree.{acknowledgement_delete_tree, acknowledgement_delete_tree_of, after_delete_tree, after_delete_tree_of, cost_delete_tree, left_in, refusal_delete_tree, tree_of, visits};

use crate::left::left_in;
use crate::tree::tree_of;
use crate::visit::{View, visits};
use cm_base::access::Level;
use cm_base::cause::Cause;
use cm_base::fail::Fail;
use cm_base::number::{Moment, Oid};
use cm_base::object::Object;
use cm_base::text::Text;
use cm_draft::draft::Draft;
use cm_removal::gone::Gone;
use cm_see::address::addressed;
use cm_see::level::lacks;
use cm_state::open::ROOT;
use cm_state::state::State;
use cm_types::definition::BaseType;
use delete_tree_parts::replies::DeleteTreeReply;
use delete_tree_parts::weight::weight_of_delete_tree;
use delete_tree_parts::writes::DeleteTree;
use std::alloc::{AllocError, Global};
use wr_rules::storage::judge_storage;

// The folder that is addressed, or the cause of the refusal.
#[tactic(auto, using(cm_types::proofs::Exits::fails_then, cm_types::proofs::Exits::fails_bind))]
fn judge<'a>(state: &'a State, user: &Text, call: &DeleteTree) -> Result<&'a Object, Cause>
    ensures { Finds (λ x. x.now) result
        (refusal_delete_tree state.now user.now (cost_delete_tree call.now) call.now)
        (addressed state.now user.now call.now.place) }
{
    judge_storage(state, weight_of_delete_tree(call))?;
    let x = match addressed(state, user, &call.place) {
        Some(x) => x,
        None => return Err(Cause::NotFound),
    };
    if lacks(state, user, Level::All, x) {
        return Err(Cause::Denied);
    }
    if !state.is_a(BaseType::Folder, x) {
        return Err(Cause::WrongKind);
    }
    if x.id == ROOT {
        return Err(Cause::RootFixed);
    }
    Ok(x)
}

// The state one step further.
fn stepped(alloc: Global, state: &State, cost: u64) -> Result<State, AllocError>
    requires step { state.now.step + 1 < 2 ^ 64 }
    requires cost { state.now.cost + cost < 2 ^ 64 }
    requires well { IsWellFormed (stepped state.now cost) }
    ensures { IfOk result (λ s. s ≡ stepped state.now cost) }
{
    let begun = Draft::of(alloc, state)?;
    let paid = begun.stepped(cost);
    Ok(paid.seal())
}

// The state with what is left of the tree.
fn with_left(
    alloc: Global,
    state: State,
    user: &Text,
    tree: &Gone,
    top: Oid,
) -> Result<(State, DeleteTreeReply), AllocError>
    ensures same { IfOk result (λ a. a.0 ≡ state) }
    ensures left { IfOk result (λ a. a.1 ≡ left_in state user.now tree.now top) }
{
    let reply = left_in(alloc, &state, user, tree, top)?;
    Ok((state, reply))
}

// The state, one step further already, after the visit of this tree, and what is left of it.
fn swept(
    alloc: Global,
    view: View<'_>,
    state: State,
    top: Oid,
) -> Result<(State, DeleteTreeReply), AllocError>
    ensures after { IfOk result (λ a. a.0
        ≡ visits state view.entry.user.now view.entry.moment view.entry.call.now view.entry.tree.now) }
    ensures left { IfOk result (λ a. a.1 ≡ left_in a.0 view.entry.user.now view.entry.tree.now top) }
{
    let after = visits(alloc, view, state)?;
    let both = with_left(alloc, after, view.user, view.tree, top)?;
    Ok(both)
}

// The state after the tree of the folder is deleted, and what is left of it.
fn deleted(
    alloc: Global,
    state: &State,
    user: &Text,
    moment: Moment,
    call: &DeleteTree,
    x: &Object,
) -> Result<(State, DeleteTreeReply), AllocError>
    requires step { state.now.step + 1 < 2 ^ 64 }
    requires cost { state.now.cost + cost_delete_tree call.now < 2 ^ 64 }
    requires well { IsWellFormed (stepped state.now (cost_delete_tree call.now)) }
    ensures after { IfOk result (λ a. a.0
        ≡ after_delete_tree_of state.now user.now moment (cost_delete_tree call.now) call.now x.now) }
    ensures left { IfOk result (λ a. a.1
        ≡ acknowledgement_delete_tree_of state.now user.now moment (cost_delete_tree call.now) call.now x.now) }
{
    let tree = tree_of(alloc, state, x.id)?;
    let paid = stepped(alloc, state, weight_of_delete_tree(call))?;
    let view = View {
        user,
        moment,
        call,
        tree: &tree,
    };
    let both = swept(alloc, view, paid, x.id)?;
    Ok(both)
}

/// Deletes a folder with the tree below it. The children of a folder are visited before it, in the order of their numbers; each visit
/// works on the repository that the visits before have left. A folder is deleted once nothing is filed in it; a document goes with its
/// whole series, or is taken out of the folders of the tree, as the call says. No series goes with a document under a hold, or under
/// retention at the moment of the call (CMIS 1.1, section 2.1.16). The cost is the weight of the call.
///
/// The answer is the first cause that refuses the call, or the repository after it and the ids of what is left of the tree, as far as
/// the caller reads it.
pub fn delete_tree(
    alloc: Global,
    state: &State,
    user: &Text,
    moment: Moment,
    call: &DeleteTree,
) -> Result<(State, DeleteTreeReply), Fail>
    ensures written { Writes result
        (refusal_delete_tree state.now user.now (cost_delete_tree call.now) call.now)
        (after_delete_tree state.now user.now moment (cost_delete_tree call.now) call.now)
        (acknowledgement_delete_tree state.now user.now moment (cost_delete_tree call.now) call.now) }
    ensures well { IfOk result (λ x. IsWellFormed x.0) }
{
    let _well = state.step();
    let x = judge(state, user, call)?;
    let (next, reply) = deleted(alloc, state, user, moment, call, x)?;
    let _next_well = next.step();
    Ok((next, reply))
}
