//! What a write that makes an item, a policy or a relationship adds to the cost of the repository.
ghost use Rattle.std.specs.Prelude.{◌≡◌, ◌+◌, [], unwrap_or, option_map};
ghost use Rattle.std.specs.List.{flat_map};
ghost use Rattle.call_parts.specs.Weight.{bounded, text_weight, texts_of_ace, texts_of_given, texts_of_place, weight_of_texts};
ghost use Rattle.create_parts.specs.Weight.{texts_of_request, weight_of_making, weight_of_create_item, weight_of_create_policy, weight_of_create_relationship};

use crate::writes::{CreateItem, CreatePolicy, CreateRelationship, ObjectRequest};
use call_parts::place::Place;
use call_parts::writes::AceRequest;
use cm_base::text::Text;
use cm_types::given::Given;

fn with_text(so_far: u64, text: &Text) -> u64
    ensures { result ≡ bounded (so_far + text_weight text.now) }
{
    so_far.saturating_add(text.len() as u64).saturating_add(64)
}

fn with_texts(so_far: u64, texts: &[Text]) -> u64
    ensures { result ≡ bounded (so_far + weight_of_texts texts.now) }
{
    let mut total = so_far;
    for text in texts {
        total = with_text(total, text);
    }
    total
}

fn with_place(so_far: u64, place: &Place) -> u64
    ensures { result ≡ bounded (so_far + weight_of_texts (texts_of_place place.now)) }
{
    match place {
        Place::Id(id) => with_text(so_far, id),
        Place::Path(names) => with_texts(so_far, names.as_slice()),
    }
}

fn with_maybe_place(so_far: u64, place: &Option<Place>) -> u64
    ensures { result ≡ bounded (so_far + weight_of_texts (unwrap_or (option_map texts_of_place place.now) [])) }
{
    match place {
        Some(place) => with_place(so_far, place),
        None => so_far,
    }
}

fn with_givens(so_far: u64, givens: &[Given]) -> u64
    ensures { result ≡ bounded (so_far + weight_of_texts (flat_map texts_of_given givens.now)) }
{
    let mut total = so_far;
    for given in givens {
        let named = with_text(total, &given.id);
        total = with_texts(named, given.texts.as_slice());
    }
    total
}

fn with_aces(so_far: u64, aces: &[AceRequest]) -> u64
    ensures { result ≡ bounded (so_far + weight_of_texts (flat_map texts_of_ace aces.now)) }
{
    let mut total = so_far;
    for ace in aces {
        let named = with_text(total, &ace.principal);
        total = with_texts(named, ace.permissions.as_slice());
    }
    total
}

fn with_request(so_far: u64, object: &ObjectRequest) -> u64
    ensures { result ≡ bounded (so_far + weight_of_texts (texts_of_request object.now)) }
{
    let given = with_givens(so_far, object.properties.as_slice());
    let ruled = with_texts(given, object.policies.as_slice());
    let less = with_aces(ruled, object.remove.as_slice());
    with_aces(less, object.add.as_slice())
}

fn weight_of_making(place: &Option<Place>, object: &ObjectRequest) -> u64
    ensures { result ≡ weight_of_making place.now object.now }
{
    let placed = with_maybe_place(64, place);
    with_request(placed, object)
}

/// What a createItem weighs: 64 for the call, and for each of its texts its bytes and 64. Takes no memory.
pub fn weight_of_create_item(call: &CreateItem) -> u64
    ensures { result ≡ weight_of_create_item call.now }
{
    weight_of_making(&call.place, &call.object)
}

/// What a createPolicy weighs, as a createItem. Takes no memory.
pub fn weight_of_create_policy(call: &CreatePolicy) -> u64
    ensures { result ≡ weight_of_create_policy call.now }
{
    weight_of_making(&call.place, &call.object)
}

/// What a createRelationship weighs, as a createItem. Takes no memory.
pub fn weight_of_create_relationship(call: &CreateRelationship) -> u64
    ensures { result ≡ weight_of_create_relationship call.now }
{
    weight_of_making(&call.place, &call.object)
}
