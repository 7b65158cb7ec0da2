//! The values of properties, written where they stand.
ghost use Rattle.std.specs.Prelude.{◌≡◌, ◌++◌, IfOk, OnOk, codes, option_map};
ghost use Rattle.serde_json.specs.Data.{string};
ghost use Rattle.json_text.specs.Tokens.{field_tokens, fields_tokens, tokens_of};
ghost use Rattle.json_text.specs.Values.{value_data};
ghost use Rattle.object_json.specs.Objects.{property_data};
ghost use Rattle.type_keys.specs.Words.{cardinality_word, kind_word};
ghost use Rattle.cm_types.specs.Changes.{base_id};
ghost use Rattle.cm_see.specs.Seen.{value_seen};
ghost use Rattle.cm_see.specs.Shown.{parent_value, path_value, system_value, words_or_unset};
ghost use Rattle.show_json.specs.Columns.{described, full_field, slot_field, texts_before, value_shown};

use crate::column::Column;
use crate::sight::Sight;
use cm_base::value::{Scalar, Value};
use cm_see::path::path_of;
use cm_see::seen::{PropertyValue, kept_seen, system_seen};
use cm_see::system::SystemProperty;
use cm_types::definition::BaseType;
use cm_types::property::PropDef;
use json_text::values::write_value;
use json_text::write::Writer;
use std::alloc::AllocError;
use type_keys::word::Worded;

fn base<'a>(found: Option<BaseType>) -> PropertyValue<'a>
    ensures { value_seen result ≡ words_or_unset (option_map base_id found) }
{
    match found {
        Some(base) => PropertyValue::Text(base.id()),
        None => PropertyValue::Made(Value::Unset),
    }
}

fn parent<'a>(sight: &Sight<'a>) -> PropertyValue<'a>
    ensures { value_seen result ≡ parent_value sight.now.repository sight.now.object }
{
    if !sight.is_folder() {
        return PropertyValue::Made(Value::Unset);
    }
    match sight.state().parent(sight.object().id) {
        Some(above) => PropertyValue::Digits(above.0),
        None => PropertyValue::Made(Value::Unset),
    }
}

fn path<'a>(sight: &Sight<'a>) -> Result<PropertyValue<'a>, AllocError>
    ensures { IfOk result (λ v. value_seen v ≡ path_value sight.now.repository sight.now.object) }
{
    if !sight.is_folder() {
        return Ok(PropertyValue::Made(Value::Unset));
    }
    let path = path_of(sight.alloc(), sight.state(), sight.object().id)?;
    Ok(PropertyValue::Made(Value::One(Scalar::Words(path))))
}

fn other<'a>(sight: &Sight<'a>, property: SystemProperty) -> Result<PropertyValue<'a>, AllocError>
    ensures { IfOk result (λ v. value_seen v
        ≡ system_value sight.now.repository sight.now.user sight.now.object property) }
{
    let value = system_seen(
        sight.alloc(),
        sight.state(),
        sight.user(),
        sight.object(),
        property,
    )?;
    Ok(value)
}

// The value of a property that the repository sets; the object's type is not looked up again.
fn system_of<'a>(
    sight: &Sight<'a>,
    property: SystemProperty,
) -> Result<PropertyValue<'a>, AllocError>
    ensures { IfOk result (λ v. value_seen v
        ≡ system_value sight.now.repository sight.now.user sight.now.object property) }
{
    match property {
        SystemProperty::BaseTypeId => Ok(base(sight.base())),
        SystemProperty::ParentId => Ok(parent(sight)),
        SystemProperty::Path => {
            let value = path(sight)?;
            Ok(value)
        }
        _ => {
            let value = other(sight, property)?;
            Ok(value)
        }
    }
}

#[tactic(auto, using(crate::specs::ColumnLaws::value_by_setting))]
fn seen<'a>(sight: &Sight<'a>, column: &Column) -> Result<PropertyValue<'a>, AllocError>
    ensures { IfOk result (λ v. value_seen v
        ≡ value_shown sight.now.repository sight.now.user sight.now.object column.now.id) }
{
    match column.property() {
        Some(property) => {
            let value = system_of(sight, property)?;
            Ok(value)
        }
        None => Ok(kept_seen(sight.object().values.as_slice(), &column.def().id)),
    }
}

fn write_seen(out: &mut Writer, value: &PropertyValue) -> Result<(), AllocError>
    ensures { OnOk result (out.new ≡ out.old ++ tokens_of (value_data (value_seen value.now))) }
{
    match value {
        PropertyValue::Text(text) => out.text(text),
        PropertyValue::Digits(number) => out.digits(*number),
        PropertyValue::Kept(value) => write_value(out, value),
        PropertyValue::Made(value) => write_value(out, value),
    }
}

fn write_text(out: &mut Writer, name: &str, text: &str) -> Result<(), AllocError>
    ensures { OnOk result (out.new ≡ out.old ++ field_tokens (name.now, string text.now)) }
{
    out.key(name)?;
    out.text(text)?;
    Ok(())
}

fn write_cardinality(out: &mut Writer, def: &PropDef) -> Result<(), AllocError>
    ensures { OnOk result (out.new ≡ out.old
        ++ field_tokens (codes "cardinality", string (cardinality_word def.now.cardinality))) }
{
    write_text(out, "cardinality", def.cardinality.word())?;
    Ok(())
}

fn write_display_name(out: &mut Writer, def: &PropDef) -> Result<(), AllocError>
    ensures { OnOk result (out.new ≡ out.old ++ field_tokens (codes "displayName", string def.now.display_name)) }
{
    write_text(out, "displayName", def.display_name.as_str())?;
    Ok(())
}

fn write_id(out: &mut Writer, def: &PropDef) -> Result<(), AllocError>
    ensures { OnOk result (out.new ≡ out.old ++ field_tokens (codes "id", string def.now.id)) }
{
    write_text(out, "id", def.id.as_str())?;
    Ok(())
}

fn write_local_name(out: &mut Writer, def: &PropDef) -> Result<(), AllocError>
    ensures { OnOk result (out.new ≡ out.old ++ field_tokens (codes "localName", string def.now.local_name)) }
{
    write_text(out, "localName", def.local_name.as_str())?;
    Ok(())
}

fn write_query_name(out: &mut Writer, def: &PropDef) -> Result<(), AllocError>
    ensures { OnOk result (out.new ≡ out.old ++ field_tokens (codes "queryName", string def.now.query_name)) }
{
    write_text(out, "queryName", def.query_name.as_str())?;
    Ok(())
}

fn write_kind(out: &mut Writer, def: &PropDef) -> Result<(), AllocError>
    ensures { OnOk result (out.new ≡ out.old ++ field_tokens (codes "type", string (kind_word def.now.kind))) }
{
    write_text(out, "type", def.kind.word())?;
    Ok(())
}

// What stands before a property's value.
fn write_texts_before(out: &mut Writer, def: &PropDef) -> Result<(), AllocError>
    ensures { OnOk result (out.new ≡ out.old ++ fields_tokens (texts_before def.now)) }
{
    write_cardinality(out, def)?;
    write_display_name(out, def)?;
    write_id(out, def)?;
    write_local_name(out, def)?;
    write_query_name(out, def)?;
    write_kind(out, def)?;
    Ok(())
}

// A property in full.
fn write_described(out: &mut Writer, def: &PropDef, value: &PropertyValue) -> Result<(), AllocError>
    ensures { OnOk result (out.new ≡ out.old ++ tokens_of (property_data (described def.now (value_seen value.now)))) }
{
    out.begin_object()?;
    write_texts_before(out, def)?;
    out.key("value")?;
    write_seen(out, value)?;
    out.end_object()?;
    Ok(())
}

/// Writes a property and its value.
pub(crate) fn write_slot(out: &mut Writer, sight: &Sight, column: &Column) -> Result<(), AllocError>
    ensures { OnOk result (out.new ≡ out.old ++ field_tokens (slot_field sight.now column.now)) }
{
    let value = seen(sight, column)?;
    out.key(column.def().id.as_str())?;
    write_seen(out, &value)?;
    Ok(())
}

/// Writes a property in full.
pub(crate) fn write_full(out: &mut Writer, sight: &Sight, column: &Column) -> Result<(), AllocError>
    ensures { OnOk result (out.new ≡ out.old ++ field_tokens (full_field sight.now column.now)) }
{
    let value = seen(sight, column)?;
    out.key(column.def().id.as_str())?;
    write_described(out, column.def(), &value)?;
    Ok(())
}
