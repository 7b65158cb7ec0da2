//! The types right below a type.
ghost use Rattle.std.specs.Prelude.{◌≡◌, IfOk, OnOk, ◌++◌, ◌∷◌, [], filter, map};
ghost use Rattle.cm_map.specs.Parts.{pointee};
ghost use Rattle.type_tree.specs.Trees.{names_none, stands_below, types_below};

use cm_base::copies::Copies;
use cm_base::items::Items;
use cm_base::text::Text;
use cm_type_list::scan::is_child_type;
use cm_type_list::types::Types;
use cm_types::definition::{TypeDef, TypeDefs};
use std::alloc::{AllocError, Global};

/// Whether a type is named that is not there.
pub fn names_none(types: &Types, id: &Option<Text>) -> bool
    ensures { result ≡ names_none types.now id.now }
{
    match id {
        None => false,
        Some(id) => types.find(id).is_none(),
    }
}

fn stands_below(top: &Option<Text>, def: &TypeDef) -> bool
    ensures { result ≡ stands_below top.now def.now }
{
    match top {
        None => def.parent.is_none(),
        Some(id) => is_child_type(id, def),
    }
}

fn add_below<'a>(
    below: &mut Vec<&'a TypeDef>,
    top: &Option<Text>,
    def: &'a TypeDef,
) -> Result<(), AllocError>
    ensures { OnOk result (map pointee below.new.items
        ≡ map pointee below.old.items ++ filter (stands_below top.now) (def.now ∷ [])) }
{
    if stands_below(top, def) {
        below.push(def)?;
    }
    Ok(())
}

/// The direct subtypes of a type, or the base types, in their order.
pub fn types_below<'a>(
    alloc: Global,
    types: &[&'a TypeDef],
    top: &Option<Text>,
) -> Result<Vec<&'a TypeDef>, AllocError>
    ensures { IfOk result (λ below. map pointee below.items ≡ types_below (map pointee types.now) top.now) }
{
    let mut below = Vec::new(alloc);
    for def in types {
        add_below(&mut below, top, *def)?;
    }
    Ok(below)
}

/// Copies of types.
pub fn copies(alloc: Global, types: &[&TypeDef]) -> Result<TypeDefs, AllocError>
    ensures { IfOk result (λ all. all ≡ map pointee types.now) }
{
    let mut all = Items::new(alloc);
    for def in types {
        all.push(Copies::copied(*def, alloc)?)?;
    }
    Ok(all)
}
