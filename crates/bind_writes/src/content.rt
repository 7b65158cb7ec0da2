//! The arguments of setContent, appendContent and deleteContent.
ghost use Rattle.std.specs.Prelude.{◌≡◌};
ghost use Rattle.cm_base.specs.Judged.{Meets};
ghost use Rattle.bind_writes.specs.Content.{stream_of, set_content_of, append_content_of, delete_content_of};

use crate::words::{CHANGE_TOKEN, CONTENT};
use bind_parts::asking::Asking;
use bind_parts::parts::{place_of, text_of};
use call_parts::changes::{AppendContent, DeleteContent, SetContent};
use call_parts::stream::GivenStream;
use cm_base::argument::Argument;
use cm_base::cause::Cause;
use cm_base::copies::Copies;
use cm_base::fail::Fail;
use form_args::choice::flag;
use form_args::words::SUCCINCT;
use std::alloc::Global;

const OVERWRITE_FLAG: &str = "overwriteFlag";

// The content stream of the request. Its bytes are shared.
fn stream_of(alloc: Global, asking: &Asking) -> Result<GivenStream, Fail>
    ensures { Meets (λ s. s) result (stream_of asking.now) }
{
    match &asking.form.content {
        Some(stream) => Ok(stream.copied(alloc)?),
        None => Err(Fail::Refused(Cause::MissingArgument(Argument::named(CONTENT)))),
    }
}

/// The setContent that the arguments make, or the first of their causes. A request without a content stream is MissingArgument.
#[tactic(auto, using(cm_types::proofs::Exits::fails_bind))]
pub fn set_content_of(alloc: Global, asking: &Asking) -> Result<SetContent, Fail>
    ensures { Meets (λ c. c) result (set_content_of asking.now) }
{
    let pairs = &asking.form.pairs;
    let succinct = flag(pairs, SUCCINCT, false)?;
    let overwrite = flag(pairs, OVERWRITE_FLAG, true)?;
    let stream = stream_of(alloc, asking)?;
    Ok(SetContent {
        place: place_of(alloc, asking)?,
        overwrite,
        token: text_of(alloc, pairs, CHANGE_TOKEN)?,
        stream,
        succinct,
    })
}

/// The appendContent that the arguments make, or the first of their causes. A request without a content stream is MissingArgument.
/// overwriteFlag is judged, since it is an argument of setContent too, and means nothing here; isLastChunk is not judged.
#[tactic(auto, using(cm_types::proofs::Exits::fails_bind))]
pub fn append_content_of(alloc: Global, asking: &Asking) -> Result<AppendContent, Fail>
    ensures { Meets (λ c. c) result (append_content_of asking.now) }
{
    let pairs = &asking.form.pairs;
    let succinct = flag(pairs, SUCCINCT, false)?;
    let _judged = flag(pairs, OVERWRITE_FLAG, true)?;
    let stream = stream_of(alloc, asking)?;
    Ok(AppendContent {
        place: place_of(alloc, asking)?,
        token: text_of(alloc, pairs, CHANGE_TOKEN)?,
        stream,
        succinct,
    })
}

/// The deleteContent that the arguments make, or the first of their causes. overwriteFlag is judged, since it is an argument of
/// setContent too, and means nothing here.
#[tactic(auto, using(cm_types::proofs::Exits::fails_bind))]
pub fn delete_content_of(alloc: Global, asking: &Asking) -> Result<DeleteContent, Fail>
    ensures { Meets (λ c. c) result (delete_content_of asking.now) }
{
    let pairs = &asking.form.pairs;
    let succinct = flag(pairs, SUCCINCT, false)?;
    let _overwrite = flag(pairs, OVERWRITE_FLAG, true)?;
    let place = place_of(alloc, asking)?;
    Ok(DeleteContent {
        place,
        token: text_of(alloc, pairs, CHANGE_TOKEN)?,
        succinct,
    })
}
