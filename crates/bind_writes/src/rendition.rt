//! The arguments of addRendition.
ghost use Rattle.std.specs.Prelude.{◌≡◌};
ghost use Rattle.cm_base.specs.Judged.{Meets};
ghost use Rattle.cm_base.specs.Names.{has_name_length};
ghost use Rattle.bind_writes.specs.Content.{stream_of};
ghost use Rattle.bind_writes.specs.Rendition.{add_rendition_of, fitting, kind_of, title_of};

use crate::words::CONTENT;
use bind_parts::asking::Asking;
use bind_parts::parts::place_of;
use call_parts::stream::GivenStream;
use cm_base::argument::Argument;
use cm_base::cause::Cause;
use cm_base::copies::Copies;
use cm_base::fail::Fail;
use cm_base::text::Text;
use form_args::choice::flag;
use form_args::pairs::Pairs;
use form_args::words::SUCCINCT;
use rendition_parts::writes::AddRendition;
use std::alloc::Global;

const KIND: &str = "kind";

const TITLE: &str = "title";

/// The most bytes of the kind or the title of a rendition.
const LONGEST_LABEL: usize = 255;

fn is_fitting(text: &Text) -> bool
    ensures { result ≡ has_name_length text.now }
{
    0 < text.len() && text.len() <= LONGEST_LABEL
}

// The text, where it has from 1 to 255 bytes.
fn fitting(alloc: Global, name: &'static str, text: &Text) -> Result<Text, Fail>
    ensures { Meets (λ t. t) result (fitting name.now text.now) }
{
    if !is_fitting(text) {
        return Err(Fail::Refused(Cause::BadArgument(Argument::named(name))));
    }
    let text = text.copied(alloc)?;
    Ok(text)
}

fn kind_of(alloc: Global, pairs: &Pairs) -> Result<Text, Fail>
    ensures { Meets (λ t. t) result (kind_of pairs.now) }
{
    match pairs.first(KIND) {
        None => Err(Fail::Refused(Cause::MissingArgument(Argument::named(KIND)))),
        Some(text) => fitting(alloc, KIND, text),
    }
}

#[tactic(auto, using(cm_types::proofs::Exits::fails_bind))]
fn title_of(alloc: Global, pairs: &Pairs) -> Result<Option<Text>, Fail>
    ensures { Meets (λ t. t) result (title_of pairs.now) }
{
    match pairs.first(TITLE) {
        None => Ok(None),
        Some(text) => {
            let title = fitting(alloc, TITLE, text)?;
            Ok(Some(title))
        }
    }
}

// The content stream of the request. Its bytes are shared.
fn stream_of(alloc: Global, asking: &Asking) -> Result<GivenStream, Fail>
    ensures { Meets (λ s. s) result (stream_of asking.now) }
{
    match &asking.form.content {
        Some(stream) => Ok(stream.copied(alloc)?),
        None => Err(Fail::Refused(Cause::MissingArgument(Argument::named(CONTENT)))),
    }
}

/// The addRendition that the arguments make, or the first of their causes. The kind must be given, and so must the content stream; the
/// title need not. Kind and title have from 1 to 255 bytes.
#[tactic(auto, using(cm_types::proofs::Exits::fails_bind))]
pub fn add_rendition_of(alloc: Global, asking: &Asking) -> Result<AddRendition, Fail>
    ensures { Meets (λ c. c) result (add_rendition_of asking.now) }
{
    let pairs = &asking.form.pairs;
    let succinct = flag(pairs, SUCCINCT, false)?;
    let kind = kind_of(alloc, pairs)?;
    let title = title_of(alloc, pairs)?;
    let stream = stream_of(alloc, asking)?;
    let place = place_of(alloc, asking)?;
    Ok(AddRendition {
        place,
        kind,
        title,
        stream,
        succinct,
    })
}
