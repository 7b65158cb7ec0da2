//! What a copy of a document takes over, and what that costs.
ghost use Rattle.std.specs.Prelude.{◌≡◌, ◌+◌, [], ◌∷◌, map, sum};
ghost use Rattle.cmis_spec.specs.Repository.{name_of};
ghost use Rattle.cmis_spec.specs.Values.{words, texts};
ghost use Rattle.cmis_spec.specs.Documents.{is_comment, without_comment};
ghost use Rattle.call_parts.specs.Weight.{bounded};
ghost use Rattle.wr_rules.specs.Rules.{value_cost};
ghost use Rattle.wr_rules.specs.Documents.{copied_cost};

use crate::costs::with_value;
use cm_base::object::Object;
use cm_base::text::Text;
use cm_base::value::Slot;
use cm_state::look::entry_of;
use cm_state::state::State;

/// The name of an object: its own, or that of its series.
pub fn name_of<'a>(state: &'a State, x: &'a Object) -> &'a str
    ensures { result.now ≡ name_of state.now x.now }
{
    match &x.name {
        Some(name) => name.as_str(),
        None => state.entry_text(entry_of(x)),
    }
}

/// The comment of a check-in, which is never copied.
pub fn is_comment(slot: &Slot) -> bool
    ensures { result ≡ is_comment slot.now }
{
    slot.id.is_str("cmis:checkinComment")
}

fn with_text(so_far: u64, text: &str) -> u64
    ensures { result ≡ bounded (so_far + value_cost (words text.now)) }
{
    so_far.saturating_add(text.len() as u64).saturating_add(64)
}

// Each text is a scalar.
fn with_each(so_far: u64, all: &[Text]) -> u64
    ensures { result ≡ bounded (so_far + sum (map (λ t. value_cost (words t)) all.now)) }
{
    let mut total = so_far;
    for text in all {
        total = with_text(total, text.as_str());
    }
    total
}

fn with_texts(so_far: u64, all: &[Text]) -> u64
    ensures { result ≡ bounded (so_far + value_cost (texts all.now)) }
{
    with_each(so_far, all)
}

fn with_slot(so_far: u64, slot: &Slot) -> u64
    ensures { result ≡ bounded (so_far + sum (map (λ s. value_cost s.value) (without_comment (slot.now ∷ [])))) }
{
    if is_comment(slot) {
        so_far
    } else {
        with_value(so_far, &slot.value)
    }
}

fn with_slots(so_far: u64, slots: &[Slot]) -> u64
    ensures { result ≡ bounded (so_far + sum (map (λ s. value_cost s.value) (without_comment slots.now))) }
{
    let mut total = so_far;
    for slot in slots {
        total = with_slot(total, slot);
    }
    total
}

/// A cost, with that of the scalars that a copy of the object takes over. Takes no memory.
pub fn with_copied(so_far: u64, state: &State, x: &Object) -> u64
    ensures { result ≡ bounded (so_far + copied_cost state.now x.now) }
{
    let named = with_text(so_far, name_of(state, x));
    let typed = with_texts(named, x.secondary.as_slice());
    with_slots(typed, x.values.as_slice())
}
