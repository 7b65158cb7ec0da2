//! The fields of a part: its name, its file name and its coding.
ghost use Rattle.std.specs.Prelude.{◌≡◌, map, IfOk, option_map};
ghost use Rattle.std.specs.List.{list_all};
ghost use Rattle.cm_base.specs.declared.cause.Cause.TheVariants as causes;
ghost use Rattle.cm_base.specs.Judged.{Meets, find_or};
ghost use Rattle.form_parts.specs.Parts.{form_data, disposition, params_in, is_coding, is_uncoded, name_in, file_by, file_in};

use crate::field::{Field, values_named};
use crate::wanted::{found, text_in};
use cm_base::cause::Cause;
use cm_base::fail::Fail;
use cm_base::text::Text;
use field_params::params::{Params, read_params, value_of};
use field_params::token::token;
use http_grammar::same_word;
use std::alloc::{AllocError, Global};

fn form_data(alloc: Global, value: &[u8]) -> Result<Params, Fail>
    ensures { Meets (λ p. p) result (find_or causes.BadBody (form_data value.now)) }
{
    let Some((name, rest)) = token(value) else {
        return Err(Fail::Refused(Cause::BadBody));
    };
    if same_word(name, b"form-data") {
        let params = read_params(alloc, rest)?;
        found(params)
    } else {
        Err(Fail::Refused(Cause::BadBody))
    }
}

fn disposition(alloc: Global, values: &[&[u8]]) -> Result<Params, Fail>
    ensures { Meets (λ p. p) result (find_or causes.BadBody (disposition (map (λ v. v.now) values.now))) }
{
    match values {
        [value] => form_data(alloc, value),
        _ => Err(Fail::Refused(Cause::BadBody)),
    }
}

/// The parameters of the one Content-Disposition of a part, which is `form-data`.
pub fn params_in(alloc: Global, fields: &[Field]) -> Result<Params, Fail>
    ensures { Meets (λ p. p) result (params_in fields.now) }
{
    let values = values_named(alloc, b"content-disposition", fields)?;
    disposition(alloc, &values)
}

fn is_coding(value: &[u8]) -> bool
    ensures { result ≡ is_coding value.now }
{
    same_word(value, b"7bit") || (same_word(value, b"8bit") || same_word(value, b"binary"))
}

fn are_codings(values: &[&[u8]]) -> bool
    ensures { result ≡ list_all (λ v. is_coding v.now) values.now }
{
    values.iter().all(|value| is_coding(value))
}

/// Whether no Content-Transfer-Encoding of a part changes its bytes.
pub fn is_uncoded(alloc: Global, fields: &[Field]) -> Result<bool, AllocError>
    ensures { IfOk result (λ b. b ≡ is_uncoded fields.now) }
{
    let values = values_named(alloc, b"content-transfer-encoding", fields)?;
    Ok(are_codings(&values))
}

/// The name of a part.
#[tactic(auto, using(cm_types::proofs::Exits::fails_bind))]
pub fn name_in(alloc: Global, params: &Params) -> Result<Text, Fail>
    ensures { Meets (λ t. t) result (name_in params.now) }
{
    let name = found(value_of(params, b"name"))?;
    text_in(alloc, name)
}

fn file_by(alloc: Global, bytes: Option<&[u8]>) -> Result<Option<Text>, Fail>
    ensures { Meets (λ t. t) result (file_by (option_map (λ b. b.now) bytes.entry)) }
{
    match bytes {
        None => Ok(None),
        Some(bytes) => {
            let text = text_in(alloc, bytes)?;
            Ok(Some(text))
        }
    }
}

/// The file name of a part, where one is given.
pub fn file_in(alloc: Global, params: &Params) -> Result<Option<Text>, Fail>
    ensures { Meets (λ t. t) result (file_in params.now) }
{
    file_by(alloc, value_of(params, b"filename"))
}
