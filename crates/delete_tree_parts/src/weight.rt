//! What a deleteTree adds to the cost of the repository.
ghost use Rattle.std.specs.Prelude.{◌≡◌, ◌+◌};
ghost use Rattle.call_parts.specs.Weight.{bounded, text_weight, texts_of_place, weight_of_texts};
ghost use Rattle.delete_tree_parts.specs.Weight.{weight_of_delete_tree};

use crate::writes::DeleteTree;
use call_parts::place::Place;
use cm_base::text::Text;

fn with_text(so_far: u64, text: &Text) -> u64
    ensures { result ≡ bounded (so_far + text_weight text.now) }
{
    so_far.saturating_add(text.len() as u64).saturating_add(64)
}

fn with_texts(so_far: u64, texts: &[Text]) -> u64
    ensures { result ≡ bounded (so_far + weight_of_texts texts.now) }
{
    let mut total = so_far;
    for text in texts {
        total = with_text(total, text);
    }
    total
}

fn with_place(so_far: u64, place: &Place) -> u64
    ensures { result ≡ bounded (so_far + weight_of_texts (texts_of_place place.now)) }
{
    match place {
        Place::Id(id) => with_text(so_far, id),
        Place::Path(names) => with_texts(so_far, names.as_slice()),
    }
}

/// What a deleteTree weighs: 64 for the call, and for each text of the place its bytes and 64. The word of unfileObjects, one of a few,
/// is no text, and what is deleted weighs nothing. Takes no memory.
pub fn weight_of_delete_tree(call: &DeleteTree) -> u64
    ensures { result ≡ weight_of_delete_tree call.now }
{
    with_place(64, &call.place)
}
