//! One row as JSON.
ghost use Rattle.std.specs.Prelude.{◌≡◌, IfOk, OnOk};
ghost use Rattle.json_text.specs.Build.{with_field};
ghost use Rattle.json_text.specs.Shown.{data_of, fields_of};
ghost use Rattle.object_json.specs.Objects.{values_data};
ghost use Rattle.include_json.specs.Rows.{cells_data, columns_field, row_data};

use crate::included::put_beside;
use cm_base::value::Slot;
use json_text::tree::{Fields, Json};
use json_text::values::value_json;
use object_json::objects::property_json;
use query_parts::replies::{QueryRow, ShownCell, ShownRow};
use std::alloc::{AllocError, Global};

fn cells_json(alloc: Global, cells: &[ShownCell]) -> Result<Json, AllocError>
    ensures { IfOk result (λ j. data_of j ≡ cells_data cells.now) }
{
    let mut fields = Fields::new(alloc);
    for cell in cells {
        fields.put(
            alloc,
            cell.key.as_str(),
            property_json(alloc, &cell.property)?,
        )?;
    }
    Ok(Json::object(fields))
}

fn values_json(alloc: Global, slots: &[Slot]) -> Result<Json, AllocError>
    ensures { IfOk result (λ j. data_of j ≡ values_data slots.now) }
{
    let mut fields = Fields::new(alloc);
    for slot in slots {
        fields.put(alloc, slot.id.as_str(), value_json(alloc, &slot.value)?)?;
    }
    Ok(Json::object(fields))
}

// The columns, in full or in succinct form.
fn put_columns(alloc: Global, fields: &mut Fields, columns: &ShownRow) -> Result<(), AllocError>
    ensures { OnOk result (fields_of fields.new ≡ with_field (fields_of fields.old) (columns_field columns.now)) }
{
    match columns {
        ShownRow::Full(cells) => {
            let json = cells_json(alloc, cells.as_slice())?;
            fields.put(alloc, "properties", json)
        }
        ShownRow::Succinct(slots) => {
            let json = values_json(alloc, slots.as_slice())?;
            fields.put(alloc, "succinctProperties", json)
        }
    }
}

/// A row: its columns in full or in succinct form, and what is shown beside them.
pub(crate) fn row_json(alloc: Global, row: &QueryRow) -> Result<Json, AllocError>
    ensures { IfOk result (λ j. data_of j ≡ row_data row.now) }
{
    let mut fields = Fields::new(alloc);
    put_columns(alloc, &mut fields, &row.columns)?;
    put_beside(alloc, &mut fields, &row.beside)?;
    Ok(Json::object(fields))
}
