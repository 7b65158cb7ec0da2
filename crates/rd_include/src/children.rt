//! The children of a folder, with what is shown beside their properties (CMIS 1.1, section 2.2.3.1).
ghost use Rattle.std.specs.Prelude.{◌≡◌, IfOk, map};
ghost use Rattle.cm_map.specs.Parts.{pointee};
ghost use Rattle.cm_base.specs.Judged.{Meets};
ghost use Rattle.cmis_spec.specs.Access.{children_of};
ghost use Rattle.rd_include.specs.ShowChildren.{answer_ordered_children, answer_show_children, answer_show_children_in, included_child, included_children};

use cm_base::cause::Cause;
use cm_base::fail::Fail;
use cm_base::items::Items;
use cm_base::number::Oid;
use cm_base::object::Object;
use cm_base::text::Text;
use cm_include::included::{View, included_object};
use cm_see::address::addressed;
use cm_see::child::children_of;
use cm_state::state::State;
use cm_types::definition::BaseType;
use include_parts::readings::ShowChildren;
use include_parts::replies::{IncludedChildrenReply, IncludedMember, IncludedMembers};
use rd_lists::folders::segment_of;
use rd_nav::page::{has_more, page};
use rd_order::ordered::ordered;
use std::alloc::{AllocError, Global};

fn included_child(
    alloc: Global,
    state: &State,
    user: &Text,
    q: &ShowChildren,
    x: &Object,
) -> Result<IncludedMember, AllocError>
    ensures { IfOk result (λ m. m ≡ included_child state.now user.now q.now x.now) }
{
    let view = View {
        state,
        user,
        filter: &q.children.filter,
        succinct: q.children.succinct,
        includes: &q.includes,
    };
    let object = included_object(alloc, view, x)?;
    let segment = segment_of(alloc, state, q.segments, x)?;
    Ok(IncludedMember { object, segment })
}

fn included_members(
    alloc: Global,
    state: &State,
    user: &Text,
    q: &ShowChildren,
    objects: &[&Object],
) -> Result<IncludedMembers, AllocError>
    ensures { IfOk result (λ all. all ≡ map (included_child state.now user.now q.now) (map pointee objects.now)) }
{
    let mut all = Items::new(alloc);
    for x in objects {
        all.push(included_child(alloc, state, user, q, x)?)?;
    }
    Ok(all)
}

// The objects of the page are shown, and all children are counted.
fn included_children(
    alloc: Global,
    state: &State,
    user: &Text,
    q: &ShowChildren,
    children: &[&Object],
) -> Result<IncludedChildrenReply, AllocError>
    ensures { IfOk result (λ reply. reply ≡ included_children state.now user.now q.now (map pointee children.now)) }
{
    let asked = &q.children;
    let shown = page(asked.skip_count, asked.max_items, children);
    let members = included_members(alloc, state, user, q, shown)?;
    Ok(IncludedChildrenReply {
        children: members,
        has_more_items: has_more(asked.skip_count, asked.max_items, children),
        num_items: children.len() as u64,
    })
}

// The children of the folder are put in order before the page is cut.
#[tactic(auto, using(cm_types::proofs::Exits::fails_bind))]
fn children_in(
    alloc: Global,
    state: &State,
    user: &Text,
    q: &ShowChildren,
    folder: Oid,
) -> Result<IncludedChildrenReply, Fail>
    ensures { Meets (λ y. y) result (answer_ordered_children state.now user.now q.now folder) }
{
    let read = children_of(alloc, state, user, folder)?;
    let children = ordered(alloc, state, user, read, &q.order)?;
    let reply = included_children(alloc, state, user, q, &children)?;
    Ok(reply)
}

fn children_of_folder(
    alloc: Global,
    state: &State,
    user: &Text,
    q: &ShowChildren,
    x: &Object,
) -> Result<IncludedChildrenReply, Fail>
    ensures { Meets (λ y. y) result (answer_show_children_in state.now user.now q.now x.now) }
{
    if !state.is_a(BaseType::Folder, x) {
        return Err(Fail::Refused(Cause::WrongKind));
    }
    children_in(alloc, state, user, q, x.id)
}

/// A page of the children that the caller reads, in the order that is asked for or else in that of their numbers, with what is asked
/// for beside their properties, and how many he reads in all. What is outside the page is counted and not shown. A folder that he
/// doesn't read is not found. An order by what no property is, or by one that is not orderable, is refused last.
pub fn show_children(
    alloc: Global,
    state: &State,
    user: &Text,
    q: &ShowChildren,
) -> Result<IncludedChildrenReply, Fail>
    ensures { Meets (λ y. y) result (answer_show_children state.now user.now q.now) }
{
    match addressed(state, user, &q.children.place) {
        Some(x) => {
            let reply = children_of_folder(alloc, state, user, q, x)?;
            Ok(reply)
        }
        None => Err(Fail::Refused(Cause::NotFound)),
    }
}
