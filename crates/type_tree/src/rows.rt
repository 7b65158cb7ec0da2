//! The tree of the types below a type.
ghost use Rattle.std.specs.Prelude.{◌≡◌, ◌+◌, ◌≤◌, ◌++◌, ◌∷◌, [], map, IfOk, OnOk};
ghost use Rattle.cm_map.specs.Parts.{pointee};
ghost use Rattle.cm_types.specs.Types.{longest_chain};
ghost use Rattle.type_tree.specs.Trees.{levels_below, levels_of, rows_of, tree_below};

use crate::below::types_below;
use crate::forest::Forest;
use cm_base::copies::Copies;
use cm_base::items::Items;
use cm_base::text::Text;
use cm_type_list::types::Types;
use cm_types::definition::TypeDef;
use std::alloc::{AllocError, Global};
use type_parts::readings::Depth;
use type_parts::replies::{TypeRow, TypeRows};

#[tactic(auto, unfolding(cm_types::specs::Types::longest_chain))]
fn longest_chain() -> u64
    ensures { result ≡ longest_chain }
{
    16
}

fn levels_of(depth: Depth) -> u64
    ensures { result ≡ levels_of depth }
{
    match depth {
        Depth::All => longest_chain(),
        Depth::Levels(levels) => levels.min(longest_chain()),
    }
}

fn levels_below(top: &Option<Text>, depth: Depth) -> u64
    ensures { result ≡ levels_below top.now depth }
{
    match top {
        None => longest_chain(),
        Some(_) => levels_of(depth),
    }
}

fn add_row(alloc: Global, rows: &mut TypeRows, level: u64, def: &TypeDef) -> Result<(), AllocError>
    ensures { OnOk result (rows.new ≡ rows.old ++ record { level = level; definition = def.now } ∷ []) }
{
    let definition = def.copied(alloc)?;
    rows.push(TypeRow { level, definition })?;
    Ok(())
}

// Adds the types of one level, each with the tree of its subtypes behind it, so many levels in all.
fn add_rows(
    alloc: Global,
    rows: &mut TypeRows,
    forest: &Forest,
    levels: u64,
    level: u64,
    tops: &[&TypeDef],
) -> Result<(), AllocError>
    requires room { level + levels ≤ longest_chain }
    ensures { OnOk result (rows.new ≡ rows.old ++ rows_of levels forest.now level (map pointee tops.now)) }
{
    if levels == 0 {
        return Ok(());
    }
    for def in tops {
        add_row(alloc, rows, level, *def)?;
        match forest.subtypes(&def.id) {
            Some(below) => add_rows(alloc, rows, forest, levels - 1, level + 1, below)?,
            None => {}
        }
    }
    Ok(())
}

fn rows_of(
    alloc: Global,
    forest: &Forest,
    levels: u64,
    tops: &[&TypeDef],
) -> Result<TypeRows, AllocError>
    requires few { levels ≤ longest_chain }
    ensures { IfOk result (λ rows. rows ≡ rows_of levels forest.now 0 (map pointee tops.now)) }
{
    let mut rows = Items::new(alloc);
    add_rows(alloc, &mut rows, forest, levels, 0, tops)?;
    Ok(rows)
}

/// The types below a type, or all types, each before the types below it; those of one parent stand in the order of their ids. The
/// time that it takes grows with the number of types as that of a sort.
pub fn tree_below(
    alloc: Global,
    types: &Types,
    top: &Option<Text>,
    depth: Depth,
) -> Result<TypeRows, AllocError>
    ensures { IfOk result (λ rows. rows ≡ tree_below types.now top.now depth) }
{
    let all = types.all(alloc)?;
    let tops = types_below(alloc, &all, top)?;
    let forest = Forest::of(alloc, all)?;
    let rows = rows_of(alloc, &forest, levels_below(top, depth), &tops)?;
    Ok(rows)
}
