//! The arguments of content.
ghost use Rattle.std.specs.Prelude.{◌≡◌};
ghost use Rattle.cm_base.specs.Judged.{Meets};
ghost use Rattle.bind_readings.specs.Documents.{content_of};

use bind_parts::asking::Asking;
use bind_parts::parts::{place_of, text_of};
use call_parts::readings::{ReadContent, STREAM_ID};
use cm_base::fail::Fail;
use std::alloc::Global;

/// The question of the selector content; its arguments have no causes.
pub fn content_of(alloc: Global, asking: &Asking) -> Result<ReadContent, Fail>
    ensures { Meets (λ c. c) result (content_of asking.now) }
{
    let place = place_of(alloc, asking)?;
    let stream = text_of(alloc, &asking.form.pairs, STREAM_ID)?;
    Ok(ReadContent { place, stream })
}
