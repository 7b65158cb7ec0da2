//! What the reply to a query shows: the columns of each row of the page.
ghost use Rattle.std.specs.Prelude.{◌≡◌, bytes_eq, find, map, IfOk};
ghost use Rattle.std.specs.Option.{option_copied};
ghost use Rattle.cm_map.specs.Parts.{pointee};
ghost use Rattle.cm_types.specs.Properties.{value_in};
ghost use Rattle.rd_query.specs.ReadQuery.{cell_of, nothing_beside, query_reply, query_row, row_beside, shown_row, slot_of};

use call_parts::replies::ShownProperty;
use cm_base::copies::Copies;
use cm_base::items::Items;
use cm_base::text::Text;
use cm_base::value::{Slot, Value, Values};
use cm_include::included::shown_beside;
use cm_state::state::State;
use include_parts::replies::ShownBeside;
use ql_bind::bound::ShownColumn;
use ql_eval::row::Row;
use query_parts::readings::ReadQuery;
use query_parts::replies::{QueryReply, QueryRow, QueryRows, ShownCell, ShownCells, ShownRow};
use rd_nav::page::{has_more, page};
use std::alloc::{AllocError, Global};

fn find_slot<'a>(row: &'a Row, id: &Text) -> Option<&'a Slot>
    ensures { option_copied result ≡ find (λ s. bytes_eq s.id id.now) row.now.values }
{
    row.values.as_slice().iter().find(|s| s.id.is(id))
}

fn value(alloc: Global, row: &Row, id: &Text) -> Result<Value, AllocError>
    ensures { IfOk result (λ v. v ≡ value_in row.now.values id.now) }
{
    match find_slot(row, id) {
        Some(slot) => slot.value.copied(alloc),
        None => Ok(Value::Unset),
    }
}

fn slot(alloc: Global, row: &Row, column: &ShownColumn) -> Result<Slot, AllocError>
    ensures { IfOk result (λ s. s ≡ slot_of row.now column.now) }
{
    let value = value(alloc, row, &column.property.id)?;
    let id = column.key.copied(alloc)?;
    Ok(Slot { id, value })
}

fn slots(alloc: Global, row: &Row, columns: &[ShownColumn]) -> Result<Values, AllocError>
    ensures { IfOk result (λ all. all ≡ map (slot_of row.now) columns.now) }
{
    let mut all = Items::new(alloc);
    for column in columns {
        all.push(slot(alloc, row, column)?)?;
    }
    Ok(all)
}

fn cell(alloc: Global, row: &Row, column: &ShownColumn) -> Result<ShownCell, AllocError>
    ensures { IfOk result (λ c. c ≡ cell_of row.now column.now) }
{
    let def = &column.property;
    let value = value(alloc, row, &def.id)?;
    let property = ShownProperty {
        id: def.id.copied(alloc)?,
        local_name: def.local_name.copied(alloc)?,
        display_name: def.display_name.copied(alloc)?,
        query_name: column.key.copied(alloc)?,
        kind: def.kind,
        cardinality: def.cardinality,
        value,
    };
    let key = column.key.copied(alloc)?;
    Ok(ShownCell { key, property })
}

fn cells(alloc: Global, row: &Row, columns: &[ShownColumn]) -> Result<ShownCells, AllocError>
    ensures { IfOk result (λ all. all ≡ map (cell_of row.now) columns.now) }
{
    let mut all = Items::new(alloc);
    for column in columns {
        all.push(cell(alloc, row, column)?)?;
    }
    Ok(all)
}

fn shown_row(
    alloc: Global,
    succinct: bool,
    columns: &[ShownColumn],
    row: &Row,
) -> Result<ShownRow, AllocError>
    ensures { IfOk result (λ s. s ≡ shown_row succinct columns.now row.now) }
{
    if succinct {
        let slots = slots(alloc, row, columns)?;
        Ok(ShownRow::Succinct(slots))
    } else {
        let cells = cells(alloc, row, columns)?;
        Ok(ShownRow::Full(cells))
    }
}

fn nothing_beside() -> ShownBeside
    ensures { result ≡ nothing_beside }
{
    ShownBeside {
        actions: None,
        relationships: None,
        renditions: None,
        policy_ids: None,
        acl: None,
    }
}

// What is asked for beside the columns, of the row's object.
fn row_beside(
    alloc: Global,
    state: &State,
    user: &Text,
    q: &ReadQuery,
    row: &Row,
) -> Result<ShownBeside, AllocError>
    ensures { IfOk result (λ b. b ≡ row_beside state.now user.now q.now row.now) }
{
    match state.object(row.id) {
        Some(x) => shown_beside(alloc, state, user, q.succinct, &q.includes, x),
        None => Ok(nothing_beside()),
    }
}

fn query_row(
    alloc: Global,
    state: &State,
    user: &Text,
    q: &ReadQuery,
    columns: &[ShownColumn],
    row: &Row,
) -> Result<QueryRow, AllocError>
    ensures { IfOk result (λ s. s ≡ query_row state.now user.now q.now columns.now row.now) }
{
    let shown = shown_row(alloc, q.succinct, columns, row)?;
    let beside = row_beside(alloc, state, user, q, row)?;
    Ok(QueryRow {
        columns: shown,
        beside,
    })
}

fn query_rows(
    alloc: Global,
    state: &State,
    user: &Text,
    q: &ReadQuery,
    columns: &[ShownColumn],
    rows: &[&Row],
) -> Result<QueryRows, AllocError>
    ensures { IfOk result (λ all. all ≡ map (query_row state.now user.now q.now columns.now) (map pointee rows.now)) }
{
    let mut all = Items::new(alloc);
    for row in rows {
        all.push(query_row(alloc, state, user, q, columns, row)?)?;
    }
    Ok(all)
}

// The rows where they stand.
fn rows_of<'a>(alloc: Global, rows: &'a [Row]) -> Result<Vec<&'a Row>, AllocError>
    ensures { IfOk result (λ all. map pointee all.items ≡ rows.now) }
{
    let mut all = Vec::new(alloc);
    for row in rows {
        all.push(row)?;
    }
    Ok(all)
}

fn page_reply(
    alloc: Global,
    state: &State,
    user: &Text,
    q: &ReadQuery,
    columns: &[ShownColumn],
    rows: &[&Row],
) -> Result<QueryReply, AllocError>
    ensures { IfOk result (λ reply. reply ≡ query_reply state.now user.now q.now columns.now (map pointee rows.now)) }
{
    let shown = page(q.skip_count, q.max_items, rows);
    let all = query_rows(alloc, state, user, q, columns, shown)?;
    Ok(QueryReply {
        rows: all,
        has_more_items: has_more(q.skip_count, q.max_items, rows),
        num_items: rows.len() as u64,
    })
}

/// The reply: of each row of the page the columns, and what is asked for beside them; what is outside the page is counted and not shown.
pub(crate) fn query_reply(
    alloc: Global,
    state: &State,
    user: &Text,
    q: &ReadQuery,
    columns: &[ShownColumn],
    rows: &[Row],
) -> Result<QueryReply, AllocError>
    ensures { IfOk result (λ reply. reply ≡ query_reply state.now user.now q.now columns.now rows.now) }
{
    let all = rows_of(alloc, rows)?;
    let reply = page_reply(alloc, state, user, q, columns, &all)?;
    Ok(reply)
}
