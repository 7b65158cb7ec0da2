//! Which objects are fetched: the members of the smallest set.
ghost use Rattle.std.specs.Prelude.{◌≡◌, [], ◌∷◌, ◌++◌, IfOk, OnOk, filter};
ghost use Rattle.ql_plan.specs.Planned.{fewest, members_of, numbers_of, planned_by, shorter};
ghost use Rattle.row_store.specs.Rows.{has_types};

use crate::key::Key;
use cm_base::items::Items;
use cm_base::number::{Oid, Oids};
use cm_base::text::Texts;
use row_store::store::RowStore;
use std::alloc::{AllocError, Global};

fn alone(alloc: Global, n: Oid) -> Result<Oids, AllocError>
    ensures { IfOk result (λ all. all ≡ n ∷ []) }
{
    let mut all = Items::new(alloc);
    all.push(n)?;
    Ok(all)
}

// The numbers that a key names.
fn numbers_of<S: RowStore>(alloc: Global, store: &S, key: Key) -> Result<Oids, AllocError>
    ensures { IfOk result (λ all. all ≡ numbers_of (S.means store.now) key) }
{
    match key {
        Key::Object(None) => Ok(Items::new(alloc)),
        Key::Object(Some(n)) => alone(alloc, n),
        Key::Folder(None) => Ok(Items::new(alloc)),
        Key::Folder(Some(f)) => store.filed_in(alloc, f),
    }
}

fn add_typed<S: RowStore>(
    all: &mut Oids,
    store: &S,
    kinds: &Texts,
    n: Oid,
) -> Result<(), AllocError>
    ensures { OnOk result (all.new ≡ all.old ++ filter (has_types (S.means store.now) kinds.now) (n ∷ [])) }
{
    if store.has_types(kinds, n) {
        all.push(n)?;
    }
    Ok(())
}

fn typed<S: RowStore>(
    alloc: Global,
    store: &S,
    kinds: &Texts,
    numbers: &[Oid],
) -> Result<Oids, AllocError>
    ensures { IfOk result (λ all. all ≡ filter (has_types (S.means store.now) kinds.now) numbers.now) }
{
    let mut all = Items::new(alloc);
    for n in numbers {
        add_typed(&mut all, store, kinds, *n)?;
    }
    Ok(all)
}

// The numbers that a key names, of objects of the row types.
fn members_of<S: RowStore>(
    alloc: Global,
    store: &S,
    kinds: &Texts,
    key: Key,
) -> Result<Oids, AllocError>
    ensures { IfOk result (λ all. all ≡ members_of (S.means store.now) kinds.now key) }
{
    let numbers = numbers_of(alloc, store, key)?;
    let all = typed(alloc, store, kinds, numbers.as_slice())?;
    Ok(all)
}

fn shorter(best: Oids, other: Oids) -> Oids
    ensures { result ≡ shorter best other }
{
    if other.len() < best.len() {
        other
    } else {
        best
    }
}

fn fewest<S: RowStore>(
    alloc: Global,
    store: &S,
    kinds: &Texts,
    first: Key,
    others: &[Key],
) -> Result<Oids, AllocError>
    ensures { IfOk result (λ all. all ≡ fewest (S.means store.now) kinds.now first others.now) }
{
    let mut best = members_of(alloc, store, kinds, first)?;
    for key in others {
        let other = members_of(alloc, store, kinds, *key)?;
        best = shorter(best, other);
    }
    Ok(best)
}

/// The numbers of the objects that are fetched.
pub(crate) fn planned_by<S: RowStore>(
    alloc: Global,
    store: &S,
    kinds: &Texts,
    keys: &[Key],
) -> Result<Oids, AllocError>
    ensures { IfOk result (λ all. all ≡ planned_by (S.means store.now) kinds.now keys.now) }
{
    match keys {
        [] => store.of_types(alloc, kinds),
        [first, others @ ..] => fewest(alloc, store, kinds, *first, others),
    }
}
