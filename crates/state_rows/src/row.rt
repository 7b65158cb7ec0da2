//! The row of an object.
ghost use Rattle.std.specs.Prelude.{◌≡◌, Some, None, map, option_and_then, if◌then◌else◌, IfOk};
ghost use Rattle.cm_map.specs.Parts.{pointee};
ghost use Rattle.row_store.specs.Rows.{if_kept, is_listed, is_row, queryable_values, row_of, row_with};

use crate::folders::{all_above, parents_of};
use crate::values::{queryable_values, tested_values};
use call_parts::readings::PropertyFilter;
use cm_base::object::Object;
use cm_base::text::Text;
use cm_base::value::Values;
use cm_see::read::reads;
use cm_see::shown::shown_defs;
use cm_state::look::entry_of;
use cm_state::state::State;
use cm_types::property::PropDef;
use ql_eval::eval::keeps;
use ql_eval::row::Row;
use row_store::search::Search;
use std::alloc::{AllocError, Global};

fn is_listed(state: &State, versions: bool, x: &Object) -> bool
    ensures { result ≡ is_listed state.now versions x.now }
{
    state.owner_of(x).is_none() && (versions || state.stands(x))
}

fn is_row(state: &State, user: &Text, versions: bool, x: &Object) -> bool
    ensures { result ≡ is_row state.now user.now versions x.now }
{
    reads(state, user, x) && is_listed(state, versions, x)
}

fn row_with(
    alloc: Global,
    state: &State,
    user: &Text,
    x: &Object,
    values: Values,
) -> Result<Row, AllocError>
    ensures { IfOk result (λ row. row ≡ row_with state.now user.now x.now values) }
{
    let folders = parents_of(alloc, state, user, entry_of(x))?;
    let above = all_above(alloc, state, folders.as_slice())?;
    Ok(Row {
        id: x.id,
        values,
        folders,
        above,
    })
}

// The row with the values of these properties, where the query keeps it. It is tested on those that the condition names; the
// others are copied only then.
fn kept_with(
    alloc: Global,
    state: &State,
    search: &Search<'_>,
    x: &Object,
    defs: &[&PropDef],
) -> Result<Option<Row>, AllocError>
    ensures { IfOk result (λ row. row ≡ if_kept search.now.bound
        (row_with state.now search.now.user x.now
        (queryable_values state.now search.now.user x.now (map pointee defs.now)))) }
{
    let tested = tested_values(alloc, state, search, x, defs)?;
    let mut row = row_with(alloc, state, search.user, x, tested)?;
    if keeps(&row, search.bound) {
        let values = queryable_values(alloc, state, search.user, x, defs)?;
        row.values = values;
        Ok(Some(row))
    } else {
        Ok(None)
    }
}

fn if_kept(
    alloc: Global,
    state: &State,
    search: &Search<'_>,
    x: &Object,
) -> Result<Option<Row>, AllocError>
    ensures { IfOk result (λ row. row ≡ if_kept search.now.bound (row_of state.now search.now.user x.now)) }
{
    let defs = shown_defs(alloc, state, &PropertyFilter::All, x)?;
    let row = kept_with(alloc, state, search, x, &defs)?;
    Ok(row)
}

/// The row of the object, where it is one for the user that the query keeps.
pub(crate) fn row_if(
    alloc: Global,
    state: &State,
    search: &Search<'_>,
    x: &Object,
) -> Result<Option<Row>, AllocError>
    ensures { IfOk result (λ row. row ≡ option_and_then (if_kept search.now.bound)
        (if is_row state.now search.now.user search.now.versions x.now
        then Some (row_of state.now search.now.user x.now) else None)) }
{
    if !is_row(state, search.user, search.versions, x) {
        return Ok(None);
    }
    let row = if_kept(alloc, state, search, x)?;
    Ok(row)
}
