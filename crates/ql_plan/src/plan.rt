//! The rows of a query.
ghost use Rattle.std.specs.Prelude.{◌≡◌, ◌+◌, ◌≤◌, ◌++◌, IfOk, OnOk, length};
ghost use Rattle.ql_plan.specs.Candidates.{fetch_bound};
ghost use Rattle.ql_plan.specs.Found.{found};
ghost use Rattle.ql_plan.specs.Planned.{HasAll, kept, kept_at};

use crate::candidate::planned_by;
use crate::key::keys_by;
use cm_base::items::Items;
use cm_base::number::{Oid, Oids};
use cm_base::steps::Steps;
use cm_base::text::Text;
use ql_bind::bound::Bound;
use ql_eval::order::ordered;
use ql_eval::row::Rows;
use row_store::search::Search;
use row_store::store::RowStore;
use std::alloc::{AllocError, Global};
use std::sync::ledger::Ledger;

// Fetches an object, and adds its row where it has one that the query keeps.
fn keep<S: RowStore, L: Ledger>(
    rows: &mut Rows,
    alloc: Global,
    store: &S,
    search: &Search<'_>,
    n: Oid,
    steps: &mut Steps<L>,
) -> Result<(), AllocError>
    ensures kept { OnOk result (rows.new ≡ rows.old ++ kept_at (S.means store.now) search.now n) }
    ensures ticked { steps.new ≡ steps.old + 1 }
{
    match store.row(alloc, search, n, steps) {
        Ok(row) => match row {
            Some(row) => {
                rows.push(row)?;
                Ok(())
            }
            None => Ok(()),
        },
        Err(e) => Err(e),
    }
}

fn kept<S: RowStore, L: Ledger>(
    alloc: Global,
    store: &S,
    search: &Search<'_>,
    numbers: &[Oid],
    steps: &mut Steps<L>,
) -> Result<Rows, AllocError>
    ensures kept { IfOk result (λ rows. rows ≡ kept (S.means store.now) search.now numbers.now) }
    ensures fetched { steps.new ≤ steps.old + length numbers.now }
{
    let mut rows = Items::new(alloc);
    for n in numbers {
        keep(&mut rows, alloc, store, search, *n, steps)?;
    }
    Ok(rows)
}

// Which objects are fetched: every row that the query finds is among them, and they are as few as the smallest set.
fn plan<S: RowStore>(alloc: Global, store: &S, bound: &Bound) -> Result<Oids, AllocError>
    ensures all { IfOk result (HasAll (S.means store.now) bound.now) }
    ensures few { IfOk result (λ ns. length ns ≤ fetch_bound (S.means store.now) bound.now) }
{
    store.lawful();
    let keys = keys_by(alloc, &bound.filter)?;
    let numbers = planned_by(alloc, store, &bound.kinds, keys.as_slice())?;
    Ok(numbers)
}

/// The rows that the query finds for the user, in its order. It fetches no more objects than the smallest set has that
/// the condition names: all objects of the row types, the object of an id, or what is filed in a folder. `bound` is the
/// query at the types of the store.
pub fn run_plan<S: RowStore, L: Ledger>(
    alloc: Global,
    store: &S,
    user: &Text,
    bound: &Bound,
    versions: bool,
    steps: &mut Steps<L>,
) -> Result<Rows, AllocError>
    ensures found { IfOk result (λ rows. rows ≡ found (S.means store.now) user.now bound.now versions) }
    ensures fetched { steps.new ≤ steps.old + fetch_bound (S.means store.now) bound.now }
{
    store.lawful();
    let numbers = plan(alloc, store, bound)?;
    let search = Search {
        user,
        bound,
        versions,
    };
    let rows = kept(alloc, store, &search, numbers.as_slice(), steps)?;
    Ok(ordered(rows, bound.keys.as_slice()))
}
