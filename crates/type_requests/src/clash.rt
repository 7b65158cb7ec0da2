//! Whether property definitions share an id or a query name.
ghost use Rattle.std.specs.Prelude.{◌≡◌, ◌||◌, ℕ, List, [], IfOk, bytes_eq, is_some, false};
ghost use Rattle.core.specs.Ordering.{nat_cmp};
ghost use Rattle.core.specs.Cmp.Lexicographic.{slice_cmp};
ghost use Rattle.core.specs.FinMap.Entries as entries;
ghost use Rattle.cm_types.specs.Changes.{has_clash};

use cm_base::copies::Copies;
use cm_base::text::Text;
use cm_map::map::Map;
use cm_types::property::PropDef;
use std::alloc::{AllocError, Global};

fn either(a: bool, b: bool) -> bool
    ensures { result ≡ (a || b) }
{
    a || b
}

fn has_name(names: &Map<Text, ()>, name: &Text) -> bool
    ensures { result ≡ is_some (entries.find (slice_cmp nat_cmp) name.now names.now) }
{
    names.get(name).is_some()
}

fn with_name(alloc: Global, names: &Map<Text, ()>, name: &Text) -> Result<Map<Text, ()>, AllocError>
    ensures { IfOk result (λ m. (q : List ℕ) → is_some (entries.find (slice_cmp nat_cmp) q m)
        ≡ (bytes_eq name.now q || is_some (entries.find (slice_cmp nat_cmp) q names.now))) }
{
    let name = name.copied(alloc)?;
    let next = names.with(alloc, name, ())?;
    Ok(next)
}

/// Whether two of the definitions share an id or a query name.
pub fn has_clash(alloc: Global, defs: &[PropDef]) -> Result<bool, AllocError>
    ensures { IfOk result (λ b. b ≡ has_clash defs.now) }
{
    let mut ids = Map::empty(alloc);
    let mut names = Map::empty(alloc);
    let mut found = false;
    for def in defs {
        let here = either(has_name(&ids, &def.id), has_name(&names, &def.query_name));
        found = either(found, here);
        let more_ids = with_name(alloc, &ids, &def.id)?;
        ids = more_ids;
        let more_names = with_name(alloc, &names, &def.query_name)?;
        names = more_names;
    }
    Ok(found)
}
