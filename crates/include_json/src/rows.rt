//! Pages of rows as JSON.
ghost use Rattle.std.specs.Prelude.{◌≡◌, map, IfOk};
ghost use Rattle.json_text.specs.Shown.{data_of, listed};
ghost use Rattle.include_json.specs.Rows.{query_data, row_data};

use crate::row::row_json;
use json_text::tree::{Elements, Fields, Json};
use query_parts::replies::{QueryReply, QueryRow};
use std::alloc::{AllocError, Global};

fn each_row(alloc: Global, rows: &[QueryRow]) -> Result<Elements, AllocError>
    ensures { IfOk result (λ e. listed e ≡ map row_data rows.now) }
{
    let mut elements = Elements::new(alloc);
    for row in rows {
        elements.push(row_json(alloc, row)?)?;
    }
    Ok(elements)
}

/// A page of the rows of a query.
#[tactic(auto, unfolding(crate::specs::Rows::query_data))]
pub fn query_json(alloc: Global, reply: &QueryReply) -> Result<Json, AllocError>
    ensures { IfOk result (λ j. data_of j ≡ query_data reply.now) }
{
    let rows = each_row(alloc, reply.rows.as_slice())?;
    let mut fields = Fields::new(alloc);
    fields.put(alloc, "results", Json::array(rows))?;
    fields.put(alloc, "hasMoreItems", Json::flag(reply.has_more_items))?;
    fields.put(alloc, "numItems", Json::count(reply.num_items))?;
    Ok(Json::object(fields))
}
