//! Objects by their numbers.
ghost use Rattle.std.specs.Prelude.{◌≡◌, ◌++◌, is_some, map, IfOk, OnOk};
ghost use Rattle.std.specs.List.{filter_map, list_any};
ghost use Rattle.std.specs.Option.{option_to_list};
ghost use Rattle.core.specs.Ordering.{nat_cmp};
ghost use Rattle.core.specs.FinMap.Entries.{find};
ghost use Rattle.cm_map.specs.Parts.{pointee};
ghost use Rattle.cm_base.specs.declared.number.Oid.{Oid};
ghost use Rattle.cm_map.specs.Keyed.{Rises};
ghost use Rattle.cmis_spec.specs.Repository.{same};
ghost use Rattle.cmis_spec.specs.Access.{read_at};

use cm_base::items::Items;
use cm_base::number::{Oid, Oids};
use cm_base::object::Object;
use cm_base::text::Text;
use cm_map::map::Map;
use cm_see::read::read_at;
use cm_state::state::State;
use std::alloc::{AllocError, Global};

// The set of these numbers.
fn set_of(alloc: Global, numbers: &[Oid]) -> Result<Map<u64, ()>, AllocError>
    ensures { IfOk result (λ m. (n : Oid) → is_some (find nat_cmp n.0 m) ≡ list_any (same n) numbers.now) }
{
    let mut all = Map::empty(alloc);
    for n in numbers {
        all = all.with(alloc, n.0, ())?;
    }
    Ok(all)
}

// The keys of a set of numbers.
fn keys_of(alloc: Global, all: &Map<u64, ()>) -> Result<Oids, AllocError>
    ensures { IfOk result (λ ns. ns ≡ map (λ e. record { 0 = e.0 }) all.now) }
{
    let mut numbers = Items::new(alloc);
    for entry in all.iter() {
        numbers.push(Oid(entry.0))?;
    }
    Ok(numbers)
}

/// The same numbers in their order, each once.
pub fn rising(alloc: Global, numbers: &[Oid]) -> Result<Oids, AllocError>
    ensures rising { IfOk result (λ ns. Rises (λ n. n.0) ns) }
    ensures members { IfOk result (λ ns. (n : Oid) → list_any (same n) ns ≡ list_any (same n) numbers.now) }
{
    let all = set_of(alloc, numbers)?;
    let _sorted = all.len();
    let numbers = keys_of(alloc, &all)?;
    Ok(numbers)
}

// Adds the object of the number where the caller reads it.
fn add_read<'a>(
    all: &mut Vec<&'a Object>,
    state: &'a State,
    user: &Text,
    n: Oid,
) -> Result<(), AllocError>
    ensures { OnOk result (map pointee all.new.items
        ≡ map pointee all.old.items ++ option_to_list (read_at state.now user.now n)) }
{
    match read_at(state, user, n) {
        Some(x) => {
            all.push(x)?;
            Ok(())
        }
        None => Ok(()),
    }
}

/// The objects of these numbers that the caller reads, in the order of the numbers.
pub fn read_among<'a>(
    alloc: Global,
    state: &'a State,
    user: &Text,
    numbers: &[Oid],
) -> Result<Vec<&'a Object>, AllocError>
    ensures { IfOk result (λ all. map pointee all.items ≡ filter_map (read_at state.now user.now) numbers.now) }
{
    let mut all = Vec::new(alloc);
    for n in numbers {
        add_read(&mut all, state, user, *n)?;
    }
    Ok(all)
}
