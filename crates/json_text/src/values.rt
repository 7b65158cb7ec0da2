//! Values as JSON (CMIS 1.1, section 5.2.11). Moments are milliseconds since 1970.
ghost use Rattle.std.specs.Prelude.{◌≡◌, ◌++◌, map, IfOk, OnOk};
ghost use Rattle.json_text.specs.Build.{list_data};
ghost use Rattle.json_text.specs.Shown.{data_of, listed};
ghost use Rattle.json_text.specs.Tokens.{each_tokens, tokens_of};
ghost use Rattle.json_text.specs.Values.{scalar_data, value_data};

use crate::tree::{Elements, Json};
use crate::write::Writer;
use cm_base::value::{Scalar, Value};
use std::alloc::{AllocError, Global};

/// A scalar: a boolean, a number or a string.
pub fn scalar_json(alloc: Global, scalar: &Scalar) -> Result<Json, AllocError>
    ensures { IfOk result (λ j. data_of j ≡ scalar_data scalar.now) }
{
    match scalar {
        Scalar::Flag(flag) => Ok(Json::flag(*flag)),
        Scalar::Whole(number) => Ok(Json::whole(*number)),
        Scalar::Time(moment) => Ok(Json::whole(*moment)),
        Scalar::Words(text) => Json::text(alloc, text.as_str()),
    }
}

/// Scalars as the elements of an array.
pub fn scalars_json(alloc: Global, scalars: &[Scalar]) -> Result<Elements, AllocError>
    ensures { IfOk result (λ e. listed e ≡ map scalar_data scalars.now) }
{
    let mut elements = Elements::new(alloc);
    for scalar in scalars {
        elements.push(scalar_json(alloc, scalar)?)?;
    }
    Ok(elements)
}

/// A value: null where it is unset, an array where it is several.
pub fn value_json(alloc: Global, value: &Value) -> Result<Json, AllocError>
    ensures { IfOk result (λ j. data_of j ≡ value_data value.now) }
{
    match value {
        Value::Unset => Ok(Json::null()),
        Value::One(scalar) => scalar_json(alloc, scalar),
        Value::Many(scalars) => Ok(Json::array(scalars_json(alloc, scalars.as_slice())?)),
    }
}

/// Writes a scalar.
pub fn write_scalar(out: &mut Writer, scalar: &Scalar) -> Result<(), AllocError>
    ensures { OnOk result (out.new ≡ out.old ++ tokens_of (scalar_data scalar.now)) }
{
    match scalar {
        Scalar::Flag(flag) => out.flag(*flag),
        Scalar::Whole(number) => out.whole(*number),
        Scalar::Time(moment) => out.whole(*moment),
        Scalar::Words(text) => out.text(text.as_str()),
    }
}

fn write_each(out: &mut Writer, scalars: &[Scalar]) -> Result<(), AllocError>
    ensures { OnOk result (out.new ≡ out.old ++ each_tokens (map scalar_data scalars.now)) }
{
    for scalar in scalars {
        write_scalar(out, scalar)?;
    }
    Ok(())
}

#[tactic(auto, using(crate::specs::TokenLaws::array_written))]
fn write_list(out: &mut Writer, scalars: &[Scalar]) -> Result<(), AllocError>
    ensures { OnOk result (out.new ≡ out.old ++ tokens_of (list_data (map scalar_data scalars.now))) }
{
    out.begin_array()?;
    write_each(out, scalars)?;
    out.end_array()?;
    Ok(())
}

/// Writes a value.
pub fn write_value(out: &mut Writer, value: &Value) -> Result<(), AllocError>
    ensures { OnOk result (out.new ≡ out.old ++ tokens_of (value_data value.now)) }
{
    match value {
        Value::Unset => out.null(),
        Value::One(scalar) => write_scalar(out, scalar),
        Value::Many(scalars) => write_list(out, scalars.as_slice()),
    }
}
