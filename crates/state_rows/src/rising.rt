//! Numbers in their order.
ghost use Rattle.std.specs.Prelude.{◌≡◌, ℕ, ◌==◌, ◌||◌, true, is_some, IfOk, map};
ghost use Rattle.std.specs.List.{list_any};
ghost use Rattle.core.specs.Ordering.{nat_cmp};
ghost use Rattle.core.specs.FinMap.Entries.{find};
ghost use Rattle.cm_map.specs.Keyed.{Rises};
ghost use Rattle.cmis_spec.specs.Repository.{same};
ghost use Rattle.cm_base.specs.declared.number.Oid.{Oid};

use cm_base::items::Items;
use cm_base::number::{Oid, Oids};
use cm_map::map::Map;
use std::alloc::{AllocError, Global};

// Whether the numbers rise; the greatest number of all is left to the set.
fn are_rising(numbers: &[Oid]) -> bool
    ensures { result ≡ true → Rises (λ n. n.0) numbers.now }
{
    let mut least = 0;
    for number in numbers {
        if number.0 < least || number.0 == u64::MAX {
            return false;
        }
        least = number.0 + 1;
    }
    true
}

fn set_of(alloc: Global, numbers: &[Oid]) -> Result<Map<u64, ()>, AllocError>
    ensures { IfOk result (λ m. (n : ℕ) → is_some (find nat_cmp n m) ≡ list_any (λ k. n == k.0) numbers.now) }
{
    let mut all = Map::empty(alloc);
    for number in numbers {
        all = all.with(alloc, number.0, ())?;
    }
    Ok(all)
}

// The keys of a set of numbers.
fn keys_of(alloc: Global, all: &Map<u64, ()>) -> Result<Oids, AllocError>
    ensures { IfOk result (λ ns. ns ≡ map (λ e. record { 0 = e.0 }) all.now) }
{
    let mut numbers = Items::new(alloc);
    for entry in all.iter() {
        numbers.push(Oid(entry.0))?;
    }
    Ok(numbers)
}

fn sorted(alloc: Global, numbers: &[Oid]) -> Result<Oids, AllocError>
    ensures rising { IfOk result (λ ns. Rises (λ n. n.0) ns) }
    ensures members { IfOk result (λ ns. (n : Oid) → list_any (same n) ns ≡ list_any (same n) numbers.now) }
{
    let all = set_of(alloc, numbers)?;
    let _sorted = all.len();
    let keys = keys_of(alloc, &all)?;
    Ok(keys)
}

/// The numbers, rising, each once.
pub(crate) fn rising(alloc: Global, numbers: Oids) -> Result<Oids, AllocError>
    ensures rising { IfOk result (λ ns. Rises (λ n. n.0) ns) }
    ensures members { IfOk result (λ ns. (n : Oid) → list_any (same n) ns ≡ list_any (same n) numbers) }
{
    if are_rising(numbers.as_slice()) {
        return Ok(numbers);
    }
    sorted(alloc, numbers.as_slice())
}
