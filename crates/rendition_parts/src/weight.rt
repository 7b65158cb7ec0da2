//! What the write on renditions adds to the cost of the repository.
ghost use Rattle.std.specs.Prelude.{◌≡◌, ◌+◌, Some};
ghost use Rattle.call_parts.specs.Versions.{bytes_of_stream, maybe, texts_of_stream};
ghost use Rattle.call_parts.specs.Weight.{bounded, text_weight, texts_of_place, weight_of_texts};
ghost use Rattle.rendition_parts.specs.Weight.{weight_of_add_rendition};

use crate::writes::AddRendition;
use call_parts::place::Place;
use call_parts::stream::GivenStream;
use cm_base::text::Text;

fn with_text(so_far: u64, text: &Text) -> u64
    ensures { result ≡ bounded (so_far + text_weight text.now) }
{
    so_far.saturating_add(text.len() as u64).saturating_add(64)
}

fn with_texts(so_far: u64, texts: &[Text]) -> u64
    ensures { result ≡ bounded (so_far + weight_of_texts texts.now) }
{
    let mut total = so_far;
    for text in texts {
        total = with_text(total, text);
    }
    total
}

fn with_place(so_far: u64, place: &Place) -> u64
    ensures { result ≡ bounded (so_far + weight_of_texts (texts_of_place place.now)) }
{
    match place {
        Place::Id(id) => with_text(so_far, id),
        Place::Path(names) => with_texts(so_far, names.as_slice()),
    }
}

fn with_maybe(so_far: u64, text: &Option<Text>) -> u64
    ensures { result ≡ bounded (so_far + weight_of_texts (maybe text.now)) }
{
    match text {
        Some(text) => with_text(so_far, text),
        None => so_far,
    }
}

// The media type, the file name where one is given, and the bytes.
fn with_stream(so_far: u64, stream: &GivenStream) -> u64
    ensures { result
        ≡ bounded (so_far + weight_of_texts (texts_of_stream (Some stream.now)) + bytes_of_stream (Some stream.now)) }
{
    let typed = so_far
        .saturating_add(stream.kind.as_str().len() as u64)
        .saturating_add(64);
    with_maybe(typed, &stream.file).saturating_add(stream.pieces.len())
}

/// What an addRendition weighs: 64 for the call, for each of its texts its bytes and 64, and the bytes of its stream. Takes no memory.
pub fn weight_of_add_rendition(call: &AddRendition) -> u64
    ensures { result ≡ weight_of_add_rendition call.now }
{
    let placed = with_place(64, &call.place);
    let named = with_text(placed, &call.kind);
    let titled = with_maybe(named, &call.title);
    with_stream(titled, &call.stream)
}
