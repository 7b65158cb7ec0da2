//! Objects, written as JSON from the state.
ghost use Rattle.std.specs.Prelude.{◌≡◌, ◌++◌, ◌∷◌, [], OnOk, map, codes, true, false};
ghost use Rattle.serde_json.specs.Data.{object};
ghost use Rattle.json_text.specs.Tokens.{field_tokens, fields_tokens, listed_members, tokens_of};
ghost use Rattle.show_json.specs.Columns.{child_by, full_field, object_by, properties_by, slot_field};

use crate::column::Column;
use crate::sight::Sight;
use crate::value::{write_full, write_slot};
use json_text::write::Writer;
use std::alloc::AllocError;

fn write_slots(out: &mut Writer, sight: &Sight, columns: &[Column]) -> Result<(), AllocError>
    ensures { OnOk result (out.new ≡ out.old ++ fields_tokens (map (slot_field sight.now) columns.now)) }
{
    for column in columns {
        write_slot(out, sight, column)?;
    }
    Ok(())
}

fn write_fulls(out: &mut Writer, sight: &Sight, columns: &[Column]) -> Result<(), AllocError>
    ensures { OnOk result (out.new ≡ out.old ++ fields_tokens (map (full_field sight.now) columns.now)) }
{
    for column in columns {
        write_full(out, sight, column)?;
    }
    Ok(())
}

#[tactic(auto, using(json_text::specs::TokenLaws::object_written))]
fn write_succinct_object(
    out: &mut Writer,
    sight: &Sight,
    columns: &[Column],
) -> Result<(), AllocError>
    ensures { OnOk result (out.new ≡ out.old
        ++ tokens_of (object (listed_members (map (slot_field sight.now) columns.now)))) }
{
    out.begin_object()?;
    write_slots(out, sight, columns)?;
    out.end_object()?;
    Ok(())
}

#[tactic(auto, using(json_text::specs::TokenLaws::object_written))]
fn write_full_object(out: &mut Writer, sight: &Sight, columns: &[Column]) -> Result<(), AllocError>
    ensures { OnOk result (out.new ≡ out.old
        ++ tokens_of (object (listed_members (map (full_field sight.now) columns.now)))) }
{
    out.begin_object()?;
    write_fulls(out, sight, columns)?;
    out.end_object()?;
    Ok(())
}

#[tactic(auto, using(crate::specs::WrittenLaws::succinct_written))]
fn write_succinct_member(
    out: &mut Writer,
    sight: &Sight,
    columns: &[Column],
) -> Result<(), AllocError>
    ensures { OnOk result (out.new ≡ out.old ++ field_tokens (properties_by sight.now true columns.now)) }
{
    out.key("succinctProperties")?;
    write_succinct_object(out, sight, columns)?;
    Ok(())
}

#[tactic(auto, using(crate::specs::WrittenLaws::full_written))]
fn write_full_member(out: &mut Writer, sight: &Sight, columns: &[Column]) -> Result<(), AllocError>
    ensures { OnOk result (out.new ≡ out.old ++ field_tokens (properties_by sight.now false columns.now)) }
{
    out.key("properties")?;
    write_full_object(out, sight, columns)?;
    Ok(())
}

fn write_properties(
    out: &mut Writer,
    sight: &Sight,
    succinct: bool,
    columns: &[Column],
) -> Result<(), AllocError>
    ensures { OnOk result (out.new ≡ out.old ++ field_tokens (properties_by sight.now succinct columns.now)) }
{
    if succinct {
        write_succinct_member(out, sight, columns)?;
        Ok(())
    } else {
        write_full_member(out, sight, columns)?;
        Ok(())
    }
}

/// Writes an object by columns, its properties in full or in succinct form.
#[tactic(auto, using(crate::specs::WrittenLaws::object_by_written))]
pub fn write_object(
    out: &mut Writer,
    sight: &Sight,
    succinct: bool,
    columns: &[Column],
) -> Result<(), AllocError>
    ensures { OnOk result (out.new ≡ out.old ++ tokens_of (object_by sight.now succinct columns.now)) }
{
    out.begin_object()?;
    write_properties(out, sight, succinct, columns)?;
    out.end_object()?;
    Ok(())
}

fn write_member(
    out: &mut Writer,
    sight: &Sight,
    succinct: bool,
    columns: &[Column],
) -> Result<(), AllocError>
    ensures { OnOk result (out.new ≡ out.old
        ++ field_tokens (codes "object", object_by sight.now succinct columns.now)) }
{
    out.key("object")?;
    write_object(out, sight, succinct, columns)?;
    Ok(())
}

/// Writes a child by columns.
#[tactic(auto, using(crate::specs::WrittenLaws::child_by_written))]
pub fn write_child(
    out: &mut Writer,
    sight: &Sight,
    succinct: bool,
    columns: &[Column],
) -> Result<(), AllocError>
    ensures { OnOk result (out.new ≡ out.old ++ tokens_of (child_by sight.now succinct columns.now)) }
{
    out.begin_object()?;
    write_member(out, sight, succinct, columns)?;
    out.end_object()?;
    Ok(())
}
