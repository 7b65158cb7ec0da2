//! What a write on an access control list adds to the cost of the repository.
ghost use Rattle.std.specs.Prelude.{◌≡◌, ◌+◌};
ghost use Rattle.std.specs.List.{flat_map};
ghost use Rattle.call_parts.specs.Weight.{bounded, text_weight, texts_of_ace, texts_of_place, weight_of_texts};
ghost use Rattle.access_parts.specs.Weight.{weight_of_apply_acl};

use crate::writes::ApplyAcl;
use call_parts::place::Place;
use call_parts::writes::AceRequest;
use cm_base::text::Text;

fn with_text(so_far: u64, text: &Text) -> u64
    ensures { result ≡ bounded (so_far + text_weight text.now) }
{
    so_far.saturating_add(text.len() as u64).saturating_add(64)
}

fn with_texts(so_far: u64, texts: &[Text]) -> u64
    ensures { result ≡ bounded (so_far + weight_of_texts texts.now) }
{
    let mut total = so_far;
    for text in texts {
        total = with_text(total, text);
    }
    total
}

fn with_place(so_far: u64, place: &Place) -> u64
    ensures { result ≡ bounded (so_far + weight_of_texts (texts_of_place place.now)) }
{
    match place {
        Place::Id(id) => with_text(so_far, id),
        Place::Path(names) => with_texts(so_far, names.as_slice()),
    }
}

fn with_aces(so_far: u64, aces: &[AceRequest]) -> u64
    ensures { result ≡ bounded (so_far + weight_of_texts (flat_map texts_of_ace aces.now)) }
{
    let mut total = so_far;
    for ace in aces {
        let named = with_text(total, &ace.principal);
        total = with_texts(named, ace.permissions.as_slice());
    }
    total
}

/// What an applyACL weighs: 64 for the call, and for each of its texts its bytes and 64. The word of the propagation, one of a few, is
/// no text. Takes no memory.
pub fn weight_of_apply_acl(call: &ApplyAcl) -> u64
    ensures { result ≡ weight_of_apply_acl call.now }
{
    let placed = with_place(64, &call.place);
    let less = with_aces(placed, call.remove.as_slice());
    with_aces(less, call.add.as_slice())
}
