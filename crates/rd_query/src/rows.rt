//! The rows that a query finds in a state.
ghost use Rattle.std.specs.Prelude.{◌≡◌, ◌+◌, ◌<◌, ◌≤◌, IfOk};
ghost use Rattle.ql_plan.specs.Candidates.{fetch_bound};
ghost use Rattle.ql_plan.specs.Found.{found};

use cm_base::steps::Steps;
use cm_base::text::Text;
use cm_state::state::State;
use ql_bind::bound::Bound;
use ql_eval::row::Rows;
use ql_plan::plan::run_plan;
use state_rows::store::StateRows;
use std::alloc::{AllocError, Global};
use std::marker::Brand;
use std::sync::ledger::{Blank, Ledger};

/// The rows that the query finds for the user, in its order. `versions` says whether each version of a document is a row. It fetches
/// no more objects than the smallest set has that the condition names.
pub fn counted_rows<L: Ledger>(
    alloc: Global,
    state: &State,
    user: &Text,
    bound: &Bound,
    versions: bool,
    steps: &mut Steps<L>,
) -> Result<Rows, AllocError>
    ensures found { IfOk result (λ rows. rows ≡ found state.now user.now bound.now versions) }
    ensures fetched { steps.new ≤ steps.old + fetch_bound state.now bound.now }
{
    run_plan(alloc, &StateRows::of(state), user, bound, versions, steps)
}

fn rows_by<L: Ledger>(
    alloc: Global,
    state: &State,
    user: &Text,
    bound: &Bound,
    versions: bool,
    blank: Blank,
) -> Result<Rows, AllocError>
    requires name { blank.name ≡ L.name }
    requires parts { blank.parts ≡ L.parts }
    requires cut { 0 < blank.parts }
    ensures { IfOk result (λ rows. rows ≡ found state.now user.now bound.now versions) }
{
    let mut steps = Steps::<L>::new(blank);
    counted_rows(alloc, state, user, bound, versions, &mut steps)
}

/// The same rows, with a counter that is dropped.
pub(crate) fn rows(
    alloc: Global,
    state: &State,
    user: &Text,
    bound: &Bound,
    versions: bool,
) -> Result<Rows, AllocError>
    ensures { IfOk result (λ rows. rows ≡ found state.now user.now bound.now versions) }
{
    rows_by::<Brand>(alloc, state, user, bound, versions, Blank::new(1))
}
