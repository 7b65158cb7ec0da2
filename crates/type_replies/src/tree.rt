//! A tree of types.
ghost use Rattle.std.specs.Prelude.{◌≡◌, ◌+◌, ◌++◌, ◌∷◌, [], length, map, IfOk, IfSome, IfNone, OnOk};
ghost use Rattle.json_text.specs.Shown.{data_of, listed};
ghost use Rattle.json_text.specs.Build.{list_data};
ghost use Rattle.type_replies.specs.Shown.{data_in, front_is_deeper, standing};
ghost use Rattle.type_replies.specs.Types.{behind, deeper, node_data, trees_of, type_tree_data, with_row};

use cm_types::definition::TypeDef;
use json_text::tree::{Elements, Fields, Json};
use std::alloc::{AllocError, Global};
use std::collections::VecDeque;
use type_parts::replies::{TypeRow, TypeTreeReply};
use type_show::show::type_value;

/// A tree, and the level of its top.
#[derive(Drop)]
pub struct Tree {
    pub level: u64,
    pub json: Json,
}

/// Whether a tree stands in front that is deeper than the level.
pub fn front_is_deeper(trees: &VecDeque<Tree>, level: u64) -> bool
    ensures { result ≡ front_is_deeper level (standing trees.now.items) }
{
    match trees.front() {
        None => false,
        Some(tree) => level < tree.level,
    }
}

fn pop(trees: &mut VecDeque<Tree>) -> Option<Json>
    ensures all { map (λ t. t.1) (standing trees.old.items)
        ≡ data_in result ++ map (λ t. t.1) (standing trees.new.items) }
    ensures fewer { IfSome result (λ _. length trees.new.items + 1 ≡ length trees.old.items) }
    ensures none { IfNone result (trees.old.items ≡ []) }
{
    match trees.pop_front() {
        None => None,
        Some(tree) => Some(tree.json),
    }
}

// Takes the tree in front where it stands deeper than the level.
fn next_deeper(trees: &mut VecDeque<Tree>, level: u64) -> Option<Json>
    ensures taken { deeper level (standing trees.old.items)
        ≡ data_in result ++ deeper level (standing trees.new.items) }
    ensures left { behind level (standing trees.old.items) ≡ behind level (standing trees.new.items) }
    ensures fewer { IfSome result (λ _. length trees.new.items + 1 ≡ length trees.old.items) }
    ensures none_taken { IfNone result (deeper level (standing trees.new.items) ≡ []) }
    ensures none_left { IfNone result (behind level (standing trees.new.items) ≡ standing trees.new.items) }
{
    if !front_is_deeper(trees, level) {
        return None;
    }
    match trees.pop_front() {
        None => None,
        Some(tree) => Some(tree.json),
    }
}

/// Takes the trees in front that stand deeper than the level.
pub fn take_deeper(
    alloc: Global,
    trees: &mut VecDeque<Tree>,
    level: u64,
) -> Result<Elements, AllocError>
    ensures taken { IfOk result (λ e. listed e ≡ deeper level (standing trees.old.items)) }
    ensures left { OnOk result (standing trees.new.items ≡ behind level (standing trees.old.items)) }
{
    let mut taken = Elements::new(alloc);
    'trees: loop {
        match next_deeper(trees, level) {
            None => return Ok(taken),
            Some(json) => taken.push(json)?,
        }
    }
}

#[tactic(auto, unfolding(crate::specs::Types::node_data))]
fn node_json(
    alloc: Global,
    property_definitions: bool,
    def: &TypeDef,
    children: Elements,
) -> Result<Json, AllocError>
    ensures { IfOk result (λ j. data_of j ≡ node_data property_definitions def.now (listed children)) }
{
    let mut fields = Fields::new(alloc);
    fields.put(alloc, "type", type_value(alloc, def, property_definitions)?)?;
    fields.put(alloc, "children", Json::array(children))?;
    Ok(Json::object(fields))
}

/// Puts a tree in front.
pub fn put_front(trees: &mut VecDeque<Tree>, level: u64, json: Json) -> Result<(), AllocError>
    ensures { OnOk result (standing trees.new.items ≡ (level, data_of json) ∷ standing trees.old.items) }
{
    trees.push_front(Tree { level, json })?;
    Ok(())
}

fn add_row(
    alloc: Global,
    property_definitions: bool,
    trees: &mut VecDeque<Tree>,
    row: &TypeRow,
) -> Result<(), AllocError>
    ensures { OnOk result (standing trees.new.items
        ≡ with_row property_definitions row.now (standing trees.old.items)) }
{
    let children = take_deeper(alloc, trees, row.level)?;
    let json = node_json(alloc, property_definitions, &row.definition, children)?;
    put_front(trees, row.level, json)?;
    Ok(())
}

// The rows are gone through from the last one, so that what stands below a type is there before it.
fn trees_of(
    alloc: Global,
    property_definitions: bool,
    rows: &[TypeRow],
) -> Result<VecDeque<Tree>, AllocError>
    ensures { IfOk result (λ trees. standing trees.items ≡ trees_of property_definitions rows.now) }
{
    let mut trees = VecDeque::new(alloc);
    for i in 0..rows.len() {
        add_row(
            alloc,
            property_definitions,
            &mut trees,
            &rows[rows.len() - 1 - i],
        )?;
    }
    Ok(trees)
}

/// The trees, without their levels.
pub fn elements_of(alloc: Global, trees: VecDeque<Tree>) -> Result<Elements, AllocError>
    ensures { IfOk result (λ e. listed e ≡ map (λ t. t.1) (standing trees.items)) }
{
    let mut trees = trees;
    let mut elements = Elements::new(alloc);
    'trees: loop {
        match pop(&mut trees) {
            None => return Ok(elements),
            Some(json) => elements.push(json)?,
        }
    }
}

/// The types below a type, or all types, each with those below it.
pub fn type_tree_json(alloc: Global, reply: &TypeTreeReply) -> Result<Json, AllocError>
    ensures { IfOk result (λ j. data_of j ≡ type_tree_data reply.now) }
{
    let trees = trees_of(alloc, reply.property_definitions, reply.rows.as_slice())?;
    let elements = elements_of(alloc, trees)?;
    Ok(Json::array(elements))
}
