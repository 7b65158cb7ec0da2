//! Trees of objects.
ghost use Rattle.std.specs.Prelude.{◌≡◌, ◌-◌, ◌∷◌, fold, length, map, IfOk, OnOk};
ghost use Rattle.json_text.specs.Build.{with_field};
ghost use Rattle.json_text.specs.Shown.{data_of, fields_of};
ghost use Rattle.type_replies.specs.Shown.{standing};
ghost use Rattle.type_replies.specs.Types.{behind, deeper};
ghost use Rattle.include_json.specs.Trees.{children_fields, object_node, tree_data, trees_in, with_member};

use crate::pages::member_json;
use include_parts::replies::{IncludedMember, IncludedRow, IncludedTreeReply};
use json_text::tree::{Fields, Json};
use std::alloc::{AllocError, Global};
use std::collections::VecDeque;
use type_replies::tree::{Tree, elements_of, front_is_deeper, put_front, take_deeper};

// Takes the trees in front that stand deeper than the level, and puts them where there are any.
#[tactic(auto, using(crate::proofs::Deeper::none_deeper, crate::proofs::Deeper::some_deeper))]
fn put_children(
    alloc: Global,
    fields: &mut Fields,
    trees: &mut VecDeque<Tree>,
    level: u64,
) -> Result<(), AllocError>
    ensures put { OnOk result (fields_of fields.new
        ≡ fold with_field (fields_of fields.old) (children_fields (deeper level (standing trees.old.items)))) }
    ensures left { OnOk result (standing trees.new.items ≡ behind level (standing trees.old.items)) }
{
    if !front_is_deeper(trees, level) {
        return Ok(());
    }
    let below = take_deeper(alloc, trees, level)?;
    fields.put(alloc, "children", Json::array(below))
}

// Takes the trees in front that stand deeper than the object, which are below it.
#[tactic(auto, unfolding(crate::specs::Trees::object_node))]
fn node_json(
    alloc: Global,
    trees: &mut VecDeque<Tree>,
    level: u64,
    member: &IncludedMember,
) -> Result<Json, AllocError>
    ensures node { IfOk result (λ j. data_of j ≡ object_node member.now (deeper level (standing trees.old.items))) }
    ensures left { OnOk result (standing trees.new.items ≡ behind level (standing trees.old.items)) }
{
    let object = member_json(alloc, "pathSegment", member)?;
    let mut fields = Fields::new(alloc);
    fields.put(alloc, "object", object)?;
    put_children(alloc, &mut fields, trees, level)?;
    Ok(Json::object(fields))
}

fn add_member(
    alloc: Global,
    trees: &mut VecDeque<Tree>,
    row: &IncludedRow,
) -> Result<(), AllocError>
    ensures { OnOk result (standing trees.new.items ≡ with_member row.now (standing trees.old.items)) }
{
    let json = node_json(alloc, trees, row.level, &row.member)?;
    put_front(trees, row.level, json)?;
    Ok(())
}

// The rows are gone through from the last one, so that what stands below an object is there before it.
fn trees_in(alloc: Global, rows: &[IncludedRow]) -> Result<VecDeque<Tree>, AllocError>
    ensures { IfOk result (λ trees. standing trees.items ≡ trees_in rows.now) }
{
    let mut trees = VecDeque::new(alloc);
    for i in 0..rows.len() {
        add_member(alloc, &mut trees, &rows[rows.len() - 1 - i])?;
    }
    Ok(trees)
}

/// What stands below a folder, each object with what stands below it.
pub fn tree_json(alloc: Global, reply: &IncludedTreeReply) -> Result<Json, AllocError>
    ensures { IfOk result (λ j. data_of j ≡ tree_data reply.now) }
{
    let trees = trees_in(alloc, reply.rows.as_slice())?;
    let elements = elements_of(alloc, trees)?;
    Ok(Json::array(elements))
}
