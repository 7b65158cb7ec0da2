//! What stands in a folder, in the order of the numbers.
ghost use Rattle.std.specs.Prelude.{◌≡◌, ℕ, ◌||◌, true, is_some, IfOk, OnOk, map};
ghost use Rattle.std.specs.List.{list_any};
ghost use Rattle.std.specs.Option.{option_copied};
ghost use Rattle.core.specs.Ordering.{nat_cmp};
ghost use Rattle.core.specs.FinMap.Entries.{find};
ghost use Rattle.cm_map.specs.Keyed.{Rises};
ghost use Rattle.cmis_spec.specs.Repository.{same};
ghost use Rattle.cm_base.specs.declared.number.Oid.{Oid};
ghost use Rattle.cm_state.specs.Looks.{standing_at, has_number};

use crate::parts::Parts;
use cm_base::items::Items;
use cm_base::number::{Oid, Oids};
use cm_base::object::Object;
use cm_map::map::Map;
use std::alloc::{AllocError, Global};

// The keys of a set of numbers.
fn numbers(alloc: Global, all: &Map<u64, ()>) -> Result<Oids, AllocError>
    ensures { IfOk result (λ ns. ns ≡ map (λ e. record { 0 = e.0 }) all.now) }
{
    let mut numbers = Items::new(alloc);
    for entry in all.iter() {
        numbers.push(Oid(entry.0))?;
    }
    Ok(numbers)
}

// The set with the number of the object, if there is one.
fn with_number(
    alloc: Global,
    all: &Map<u64, ()>,
    x: Option<&Object>,
) -> Result<Map<u64, ()>, AllocError>
    ensures { IfOk result (λ m. (n : ℕ) → is_some (find nat_cmp n m)
        ≡ (has_number n (option_copied x.entry) || is_some (find nat_cmp n all.now))) }
{
    match x {
        Some(x) => {
            let more = all.with(alloc, x.id.0, ())?;
            Ok(more)
        }
        None => all.share(alloc),
    }
}

// The numbers of what stands for these entries.
fn numbers_among(
    alloc: Global,
    parts: &Parts,
    entries: &Map<u64, Oid>,
) -> Result<Map<u64, ()>, AllocError>
    ensures { IfOk result (λ m. (n : ℕ) → is_some (find nat_cmp n m)
        ≡ list_any (λ e. has_number n (standing_at parts.now e.1)) entries.now) }
{
    let mut all = Map::empty(alloc);
    for entry in entries.iter() {
        let at: &(u64, Oid) = entry;
        all = with_number(alloc, &all, parts.standing(at.1))?;
    }
    Ok(all)
}

// Adds the number of the object, if there is one.
fn push_number(numbers: &mut Oids, x: Option<&Object>) -> Result<(), AllocError>
    ensures { OnOk result ((n : Oid) → list_any (same n) numbers.new
        ≡ (has_number n.0 (option_copied x.entry) || list_any (same n) numbers.old)) }
{
    match x {
        Some(x) => numbers.push(x.id),
        None => Ok(()),
    }
}

// The numbers of what stands for these entries, in the order of the entries.
fn gathered(alloc: Global, parts: &Parts, entries: &Map<u64, Oid>) -> Result<Oids, AllocError>
    ensures { IfOk result (λ ns. (n : Oid) → list_any (same n) ns
        ≡ list_any (λ e. has_number n.0 (standing_at parts.now e.1)) entries.now) }
{
    let mut numbers = Items::new(alloc);
    for entry in entries.iter() {
        let at: &(u64, Oid) = entry;
        push_number(&mut numbers, parts.standing(at.1))?;
    }
    Ok(numbers)
}

// Whether the numbers rise; the greatest number of all is left to the set.
fn are_rising(numbers: &[Oid]) -> bool
    ensures { result ≡ true → Rises (λ n. n.0) numbers.now }
{
    let mut least = 0;
    for number in numbers {
        if number.0 < least || number.0 == u64::MAX {
            return false;
        }
        least = number.0 + 1;
    }
    true
}

// The numbers of what stands for these entries, put in order by a set.
fn sorted_among(alloc: Global, parts: &Parts, entries: &Map<u64, Oid>) -> Result<Oids, AllocError>
    ensures rising { IfOk result (λ ns. Rises (λ n. n.0) ns) }
    ensures members { IfOk result (λ ns. (n : Oid) → list_any (same n) ns
        ≡ list_any (λ e. has_number n.0 (standing_at parts.now e.1)) entries.now) }
{
    let all = numbers_among(alloc, parts, entries)?;
    let _sorted = all.len();
    let numbers = numbers(alloc, &all)?;
    Ok(numbers)
}

/// The numbers of what stands for these entries, rising.
pub(crate) fn standing_among(
    alloc: Global,
    parts: &Parts,
    entries: &Map<u64, Oid>,
) -> Result<Oids, AllocError>
    ensures rising { IfOk result (λ ns. Rises (λ n. n.0) ns) }
    ensures members { IfOk result (λ ns. (n : Oid) → list_any (same n) ns
        ≡ list_any (λ e. has_number n.0 (standing_at parts.now e.1)) entries.now) }
{
    let numbers = gathered(alloc, parts, entries)?;
    if are_rising(numbers.as_slice()) {
        return Ok(numbers);
    }
    sorted_among(alloc, parts, entries)
}
