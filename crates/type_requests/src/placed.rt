//! Lists of property definitions: one behind the other, and in byte order of their ids.
ghost use Rattle.std.specs.Prelude.{◌≡◌, ◌++◌, IfOk, OnOk, map};
ghost use Rattle.cm_types.specs.Changes.{placed, sorted_props};
ghost use Rattle.type_requests.specs.Keys.{IsKeyed, values_of};

use cm_base::copies::Copies;
use cm_base::items::Items;
use cm_base::text::Text;
use cm_map::map::Map;
use cm_types::property::{PropDef, PropDefs};
use std::alloc::{AllocError, Global};

/// Puts copies of the definitions at the end of the list.
pub fn add_copies(alloc: Global, all: &mut PropDefs, defs: &[PropDef]) -> Result<(), AllocError>
    ensures { OnOk result (all.new ≡ all.old ++ defs.now) }
{
    for def in defs {
        let copy = def.copied(alloc)?;
        all.push(copy)?;
    }
    Ok(())
}

/// The definitions of both lists, one list behind the other.
pub fn joined(alloc: Global, first: &[PropDef], second: &[PropDef]) -> Result<PropDefs, AllocError>
    ensures { IfOk result (λ all. all ≡ first.now ++ second.now) }
{
    let mut all = Items::new(alloc);
    add_copies(alloc, &mut all, first)?;
    add_copies(alloc, &mut all, second)?;
    Ok(all)
}

// A map by ids with one more definition.
fn with_prop(
    alloc: Global,
    map: &Map<Text, PropDef>,
    def: &PropDef,
) -> Result<Map<Text, PropDef>, AllocError>
    requires { IsKeyed (λ d. d.id) map.now }
    ensures keyed { IfOk result (λ m. IsKeyed (λ d. d.id) m) }
    ensures values { IfOk result (λ m. values_of m ≡ placed (λ d. d.id) def.now (values_of map.now)) }
{
    let _sorted = map.len();
    let id = def.id.copied(alloc)?;
    let def = def.copied(alloc)?;
    let next = map.with(alloc, id, def)?;
    Ok(next)
}

// The values of a map in order.
fn values(alloc: Global, map: &Map<Text, PropDef>) -> Result<PropDefs, AllocError>
    ensures { IfOk result (λ all. all ≡ values_of map.now) }
{
    let mut all = Items::new(alloc);
    for entry in map.iter() {
        let def = entry.1.copied(alloc)?;
        all.push(def)?;
    }
    Ok(all)
}

/// The definitions in byte order of their ids, a later one in place of an earlier one of its id.
pub fn sorted_props(alloc: Global, defs: &[PropDef]) -> Result<PropDefs, AllocError>
    ensures { IfOk result (λ all. all ≡ sorted_props defs.now) }
{
    let mut map = Map::empty(alloc);
    for def in defs {
        let next = with_prop(alloc, &map, def)?;
        map = next;
    }
    let all = values(alloc, &map)?;
    Ok(all)
}
