//! What a write on applied policies adds to the cost of the repository.
ghost use Rattle.std.specs.Prelude.{◌≡◌, ◌+◌, [], ◌∷◌, ◌++◌};
ghost use Rattle.call_parts.specs.Versions.{weight_with};
ghost use Rattle.call_parts.specs.Weight.{bounded, text_weight, texts_of_place, weight_of_texts};
ghost use Rattle.policy_parts.specs.Weight.{weight_of_apply_policy, weight_of_remove_policy};

use crate::writes::{ApplyPolicy, RemovePolicy};
use call_parts::place::Place;
use cm_base::text::Text;

fn with_text(so_far: u64, text: &Text) -> u64
    ensures { result ≡ bounded (so_far + text_weight text.now) }
{
    so_far.saturating_add(text.len() as u64).saturating_add(64)
}

fn with_texts(so_far: u64, texts: &[Text]) -> u64
    ensures { result ≡ bounded (so_far + weight_of_texts texts.now) }
{
    let mut total = so_far;
    for text in texts {
        total = with_text(total, text);
    }
    total
}

fn with_place(so_far: u64, place: &Place) -> u64
    ensures { result ≡ bounded (so_far + weight_of_texts (texts_of_place place.now)) }
{
    match place {
        Place::Id(id) => with_text(so_far, id),
        Place::Path(names) => with_texts(so_far, names.as_slice()),
    }
}

// What a call on this object and this policy weighs.
fn weight_of(place: &Place, policy: &Text) -> u64
    ensures { result ≡ weight_with (texts_of_place place.now ++ policy.now ∷ []) 0 }
{
    with_text(with_place(64, place), policy)
}

/// What an applyPolicy weighs: 64 for the call, and for each of its texts its bytes and 64. Takes no memory.
pub fn weight_of_apply_policy(call: &ApplyPolicy) -> u64
    ensures { result ≡ weight_of_apply_policy call.now }
{
    weight_of(&call.place, &call.policy)
}

/// What a removePolicy weighs: 64 for the call, and for each of its texts its bytes and 64. Takes no memory.
pub fn weight_of_remove_policy(call: &RemovePolicy) -> u64
    ensures { result ≡ weight_of_remove_policy call.now }
{
    weight_of(&call.place, &call.policy)
}
