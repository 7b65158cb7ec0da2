//! What stands below a folder, as a tree (CMIS 1.1, sections 2.2.3.2 and 2.2.3.3).
ghost use Rattle.std.specs.Prelude.{◌≡◌, ◌+◌, ◌≤◌, ◌++◌, ◌∷◌, [], filter, map, IfOk, OnOk};
ghost use Rattle.cm_map.specs.Parts.{pointee};
ghost use Rattle.cm_base.specs.Judged.{Meets};
ghost use Rattle.cmis_spec.specs.Repository.{levels_up};
ghost use Rattle.rd_trees.specs.ReadTree.{all_below, answer_tree, answer_tree_of, included_node, included_row, is_in_tree, placed, right_below, tree_levels, tree_reply};
ghost use Rattle.rd_trees.specs.Walks.{node_shown, nodes_shown};

use cm_base::cause::Cause;
use cm_base::fail::Fail;
use cm_base::items::Items;
use cm_base::number::Oid;
use cm_base::object::Object;
use cm_base::text::Text;
use cm_include::included::{View, included_object};
use cm_see::address::addressed;
use cm_see::child::children_of;
use cm_see::tree::levels_up;
use cm_state::state::State;
use cm_types::definition::BaseType;
use include_parts::readings::ShowTree;
use include_parts::replies::{IncludedMember, IncludedRow, IncludedRows, IncludedTreeReply};
use rd_lists::folders::segment_of;
use rd_lists::listed::is_too_long;
use std::alloc::{AllocError, Global};
use tree_parts::readings::ReadTree;
use type_parts::readings::Depth;

/// What a tree is read of: whose, and whether it has folders alone.
#[derive(Clone, Copy)]
pub(crate) struct Scope<'a> {
    pub(crate) state: &'a State,
    pub(crate) user: &'a Text,
    pub(crate) folders_only: bool,
}

/// An object, and how many of the tree stand above it.
#[derive(Drop)]
pub(crate) struct Node<'a> {
    pub(crate) level: u64,
    pub(crate) object: &'a Object,
}

fn tree_levels(depth: Depth) -> u64
    ensures { result ≡ tree_levels depth }
{
    match depth {
        Depth::All => levels_up(),
        Depth::Levels(levels) => levels.min(levels_up()),
    }
}

fn is_in_tree(state: &State, folders_only: bool, x: &Object) -> bool
    ensures { result ≡ is_in_tree state.now folders_only x.now }
{
    !folders_only || state.is_a(BaseType::Folder, x)
}

fn push_in_tree<'a>(
    all: &mut Vec<&'a Object>,
    state: &State,
    folders_only: bool,
    x: &'a Object,
) -> Result<(), AllocError>
    ensures { OnOk result (map pointee all.new.items
        ≡ map pointee all.old.items ++ filter (is_in_tree state.now folders_only) (x.now ∷ [])) }
{
    if is_in_tree(state, folders_only, x) {
        all.push(x)?;
    }
    Ok(())
}

fn kept<'a>(
    alloc: Global,
    state: &State,
    folders_only: bool,
    objects: &[&'a Object],
) -> Result<Vec<&'a Object>, AllocError>
    ensures { IfOk result (λ all. map pointee all.items
        ≡ filter (is_in_tree state.now folders_only) (map pointee objects.now)) }
{
    let mut all = Vec::new(alloc);
    for x in objects {
        push_in_tree(&mut all, state, folders_only, *x)?;
    }
    Ok(all)
}

fn right_below<'a>(
    alloc: Global,
    scope: Scope<'a>,
    folder: Oid,
) -> Result<Vec<&'a Object>, AllocError>
    ensures { IfOk result (λ all. map pointee all.items
        ≡ right_below scope.entry.state.now scope.entry.user.now scope.entry.folders_only folder) }
{
    let children = children_of(alloc, scope.state, scope.user, folder)?;
    let all = kept(alloc, scope.state, scope.folders_only, &children)?;
    Ok(all)
}

fn push_node<'a>(
    nodes: &mut Vec<Node<'a>>,
    level: u64,
    object: &'a Object,
) -> Result<(), AllocError>
    ensures { OnOk result (nodes_shown nodes.new.items
        ≡ nodes_shown nodes.old.items ++ (level, object.now) ∷ []) }
{
    nodes.push(Node { level, object })?;
    Ok(())
}

// Adds the objects of one level, each with the tree below it behind it, so many levels in all.
fn add_nodes<'a>(
    alloc: Global,
    nodes: &mut Vec<Node<'a>>,
    scope: Scope<'a>,
    levels: u64,
    level: u64,
    tops: &[&'a Object],
) -> Result<(), AllocError>
    requires room { level + levels ≤ levels_up }
    ensures { OnOk result (nodes_shown nodes.new.items ≡ nodes_shown nodes.old.items
        ++ placed levels scope.entry.state.now scope.entry.user.now scope.entry.folders_only level
        (map pointee tops.now)) }
{
    if levels == 0 {
        return Ok(());
    }
    for x in tops {
        push_node(nodes, level, *x)?;
        let below = right_below(alloc, scope, x.id)?;
        add_nodes(alloc, nodes, scope, levels - 1, level + 1, &below)?;
    }
    Ok(())
}

fn all_below<'a>(
    alloc: Global,
    state: &'a State,
    user: &'a Text,
    q: &ReadTree,
    folder: Oid,
) -> Result<Vec<Node<'a>>, AllocError>
    ensures { IfOk result (λ all. nodes_shown all.items ≡ all_below state.now user.now q.now folder) }
{
    let scope = Scope {
        state,
        user,
        folders_only: q.folders_only,
    };
    let tops = right_below(alloc, scope, folder)?;
    let mut nodes = Vec::new(alloc);
    add_nodes(alloc, &mut nodes, scope, tree_levels(q.depth), 0, &tops)?;
    Ok(nodes)
}

fn included_node(
    alloc: Global,
    state: &State,
    user: &Text,
    q: &ShowTree,
    x: &Object,
) -> Result<IncludedMember, AllocError>
    ensures { IfOk result (λ m. m ≡ included_node state.now user.now q.now x.now) }
{
    let view = View {
        state,
        user,
        filter: &q.tree.filter,
        succinct: q.tree.succinct,
        includes: &q.includes,
    };
    let object = included_object(alloc, view, x)?;
    let segment = segment_of(alloc, state, q.tree.segments, x)?;
    Ok(IncludedMember { object, segment })
}

fn included_row(
    alloc: Global,
    state: &State,
    user: &Text,
    q: &ShowTree,
    node: &Node<'_>,
) -> Result<IncludedRow, AllocError>
    ensures { IfOk result (λ row. row ≡ included_row state.now user.now q.now (node_shown node.now)) }
{
    let member = included_node(alloc, state, user, q, node.object)?;
    Ok(IncludedRow {
        level: node.level,
        member,
    })
}

fn included_rows(
    alloc: Global,
    state: &State,
    user: &Text,
    q: &ShowTree,
    nodes: &[Node<'_>],
) -> Result<IncludedRows, AllocError>
    ensures { IfOk result (λ rows. rows ≡ map (included_row state.now user.now q.now) (nodes_shown nodes.now)) }
{
    let mut rows = Items::new(alloc);
    for node in nodes {
        rows.push(included_row(alloc, state, user, q, node)?)?;
    }
    Ok(rows)
}

fn tree_reply(
    alloc: Global,
    state: &State,
    user: &Text,
    q: &ShowTree,
    nodes: &[Node<'_>],
) -> Result<IncludedTreeReply, Fail>
    ensures { Meets (λ y. y) result (tree_reply state.now user.now q.now (nodes_shown nodes.now)) }
{
    let count = nodes.len() as u64;
    if is_too_long(count) {
        return Err(Fail::Refused(Cause::TooMany(count)));
    }
    let rows = included_rows(alloc, state, user, q, nodes)?;
    Ok(IncludedTreeReply { rows })
}

fn tree_of(
    alloc: Global,
    state: &State,
    user: &Text,
    q: &ShowTree,
    x: &Object,
) -> Result<IncludedTreeReply, Fail>
    ensures { Meets (λ y. y) result (answer_tree_of state.now user.now q.now x.now) }
{
    if !state.is_a(BaseType::Folder, x) {
        return Err(Fail::Refused(Cause::WrongKind));
    }
    let nodes = all_below(alloc, state, user, &q.tree, x.id)?;
    tree_reply(alloc, state, user, q, &nodes)
}

/// The tree of the children that the caller reads, or of folders alone, so many levels deep, with what is asked for beside their
/// properties: each object stands before those below it, and the children of one folder stand in the order of their numbers. A folder
/// that the caller doesn't read is not found, what is no folder is of the wrong kind, and more than 5000 objects are too many. It visits
/// the folders of the tree alone.
pub fn tree(
    alloc: Global,
    state: &State,
    user: &Text,
    q: &ShowTree,
) -> Result<IncludedTreeReply, Fail>
    ensures { Meets (λ y. y) result (answer_tree state.now user.now q.now) }
{
    match addressed(state, user, &q.tree.place) {
        Some(x) => tree_of(alloc, state, user, q, x),
        None => Err(Fail::Refused(Cause::NotFound)),
    }
}
