//! The bodies of replies to refused requests (CMIS 1.1, section 5.2.10).
ghost use Rattle.std.specs.Prelude.{◌≡◌, IfOk};
ghost use Rattle.json_text.specs.Shown.{data_of};
ghost use Rattle.json_text.specs.Bodies.{cause_data, cause_text};

use crate::tree::{Fields, Json};
use bytes::Bytes;
use cm_base::cause::Cause;
use std::alloc::{AllocError, Global};

fn cause_json(alloc: Global, cause: &Cause) -> Result<Json, AllocError>
    ensures { IfOk result (λ j. data_of j ≡ cause_data cause.now) }
{
    let message = cause.message(alloc)?;
    let mut fields = Fields::new(alloc);
    fields.put(
        alloc,
        "exception",
        Json::text(alloc, cause.exception().name())?,
    )?;
    fields.put(alloc, "message", Json::text(alloc, message.as_str())?)?;
    Ok(Json::object(fields))
}

/// The body `{"exception":..,"message":..}` of a cause.
pub fn cause_body(alloc: Global, cause: &Cause) -> Result<Bytes, AllocError>
    ensures { IfOk result (λ b. b ≡ cause_text cause.now) }
{
    let json = cause_json(alloc, cause)?;
    let text = json.to_vec(alloc)?;
    let body = Bytes::from_vec(text)?;
    Ok(body)
}
