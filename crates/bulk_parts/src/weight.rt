//! What an update of several objects adds to the cost of the repository.
ghost use Rattle.std.specs.Prelude.{◌≡◌, ◌+◌, map, sum};
ghost use Rattle.std.specs.List.{flat_map};
ghost use Rattle.call_parts.specs.Versions.{maybe};
ghost use Rattle.call_parts.specs.Weight.{bounded, text_weight, texts_of_given, weight_of_texts};
ghost use Rattle.bulk_parts.specs.Weight.{texts_of_object, weight_of_object, weight_of_objects, weight_of_bulk_update};

use crate::writes::{BulkUpdate, ObjectIdAndChangeToken};
use cm_base::text::Text;
use cm_types::given::Given;

fn with_text(so_far: u64, text: &Text) -> u64
    ensures { result ≡ bounded (so_far + text_weight text.now) }
{
    so_far.saturating_add(text.len() as u64).saturating_add(64)
}

fn with_texts(so_far: u64, texts: &[Text]) -> u64
    ensures { result ≡ bounded (so_far + weight_of_texts texts.now) }
{
    let mut total = so_far;
    for text in texts {
        total = with_text(total, text);
    }
    total
}

fn with_givens(so_far: u64, givens: &[Given]) -> u64
    ensures { result ≡ bounded (so_far + weight_of_texts (flat_map texts_of_given givens.now)) }
{
    let mut total = so_far;
    for given in givens {
        total = with_texts(with_text(total, &given.id), given.texts.as_slice());
    }
    total
}

fn with_maybe(so_far: u64, text: &Option<Text>) -> u64
    ensures { result ≡ bounded (so_far + weight_of_texts (maybe text.now)) }
{
    match text {
        Some(text) => with_text(so_far, text),
        None => so_far,
    }
}

// An object more, for which the properties weigh so much.
fn with_object(so_far: u64, object: &ObjectIdAndChangeToken, properties: u64) -> u64
    ensures { result ≡ bounded (so_far + weight_of_object properties object.now) }
{
    let named = with_text(so_far.saturating_add(256), &object.id);
    with_maybe(named, &object.token).saturating_add(properties)
}

fn with_each(so_far: u64, objects: &[ObjectIdAndChangeToken], properties: u64) -> u64
    ensures { result ≡ bounded (so_far + sum (map (weight_of_object properties) objects.now)) }
{
    let mut total = so_far;
    for object in objects {
        total = with_object(total, object, properties);
    }
    total
}

// The objects, for each of which the properties weigh so much; where there is none, the properties alone.
fn with_objects(so_far: u64, objects: &[ObjectIdAndChangeToken], properties: u64) -> u64
    ensures { result ≡ bounded (so_far + weight_of_objects properties objects.now) }
{
    match objects {
        [] => so_far.saturating_add(properties),
        [_, ..] => with_each(so_far, objects, properties),
    }
}

/// What a bulkUpdate weighs: 64 for the call, 256 for each object, and for each text its bytes and 64; the texts of the properties
/// count once for each object, and once where there is none. Takes no memory.
pub fn weight_of_bulk_update(call: &BulkUpdate) -> u64
    ensures { result ≡ weight_of_bulk_update call.now }
{
    let less = with_texts(64, call.remove_secondary.as_slice());
    let more = with_texts(less, call.add_secondary.as_slice());
    let properties = with_givens(0, call.properties.as_slice());
    with_objects(more, call.objects.as_slice(), properties)
}
