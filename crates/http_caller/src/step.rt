//! The step that a request names.
ghost use Rattle.std.specs.Prelude.{◌≡◌};
ghost use Rattle.http_caller.specs.Steps.{least_of};

use cm_base::argument::Argument;
use cm_base::cause::Cause;
use cm_base::decimal::read_u64;
use http_wire::{Head, Named};

const CMIS_STEP: &str = "CMIS-Step";

/// The step of the field CMIS-Step, or 0 without it. A value that is no decimal number below 2^64, and several fields, are refused. It takes no memory.
pub fn least_of(head: &Head) -> Result<u64, Cause>
    ensures { result ≡ least_of head.now }
{
    match head.named(b"cmis-step") {
        Named::Absent => Ok(0),
        Named::One(value) => match read_u64(value) {
            Some(step) => Ok(step),
            None => Err(Cause::BadArgument(Argument::named(CMIS_STEP))),
        },
        Named::Several => Err(Cause::BadArgument(Argument::named(CMIS_STEP))),
    }
}
