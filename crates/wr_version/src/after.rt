//! What a check-in leaves of a working copy: its name, its secondary types and its values.
ghost use Rattle.std.specs.Prelude.{◌≡◌, ◌∷◌, ◌++◌, ◌&&◌, ◌||◌, IfOk, map, codes};
ghost use Rattle.std.specs.List.{list_any};
ghost use Rattle.cm_base.specs.declared.value.Slot.{Slot};
ghost use Rattle.cm_base.specs.declared.value.Scalar.TheVariants.{Words};
ghost use Rattle.cmis_spec.specs.Repository.{is_taken};
ghost use Rattle.cmis_spec.specs.Values.{words, texts};
ghost use Rattle.cmis_spec.specs.Documents.{with_comment};
ghost use Rattle.wr_rules.specs.Documents.{form_slots, name_after, secondary_after, is_taken_anywhere};

use crate::check_out::only_others;
use cm_base::copies::Copies;
use cm_base::items::Items;
use cm_base::number::Oid;
use cm_base::object::Object;
use cm_base::text::{Text, Texts};
use cm_base::value::{Scalar, Scalars, Slot, Value, Values};
use cm_map::map::Map;
use cm_state::state::State;
use cm_types::given::Given;
use std::alloc::{AllocError, Global};
use wr_rules::copied::name_of;
use wr_rules::properties::{is_given, name_in, secondary_in};

/// The name that is given, else the one that the object has.
pub fn name_after(
    alloc: Global,
    state: &State,
    x: &Object,
    given: &[Given],
) -> Result<Text, AllocError>
    ensures { IfOk result (λ t. t ≡ name_after state.now x.now given.now) }
{
    if is_given(given, "cmis:name") {
        name_in(alloc, given)
    } else {
        Text::from_str(alloc, name_of(state, x))
    }
}

/// The secondary types that are given, else those that the object has.
pub fn secondary_after(alloc: Global, x: &Object, given: &[Given]) -> Result<Texts, AllocError>
    ensures { IfOk result (λ ts. ts ≡ secondary_after x.now given.now) }
{
    if is_given(given, "cmis:secondaryObjectTypeIds") {
        secondary_in(alloc, given)
    } else {
        x.secondary.copied(alloc)
    }
}

fn scalars(alloc: Global, texts: &[Text]) -> Result<Scalars, AllocError>
    ensures { IfOk result (λ all. all ≡ map Words texts.now) }
{
    let mut all = Items::new(alloc);
    for text in texts {
        all.push(Scalar::Words(text.copied(alloc)?))?;
    }
    Ok(all)
}

// A list of texts; the empty list is unset.
fn texts(alloc: Global, items: &[Text]) -> Result<Value, AllocError>
    ensures { IfOk result (λ v. v ≡ texts items.now) }
{
    match items {
        [] => Ok(Value::Unset),
        _ => {
            let all = scalars(alloc, items)?;
            Ok(Value::Many(all))
        }
    }
}

// A property whose value is one text.
fn text_slot(alloc: Global, id: &str, text: &str) -> Result<Slot, AllocError>
    ensures { IfOk result (λ s. s ≡ record { id = id.now; value = words text.now }) }
{
    let id = Text::from_str(alloc, id)?;
    let text = Text::from_str(alloc, text)?;
    Ok(Slot {
        id,
        value: Value::One(Scalar::Words(text)),
    })
}

fn secondary_slot(alloc: Global, x: &Object) -> Result<Slot, AllocError>
    ensures { IfOk result (λ s. s
        ≡ record { id = codes "cmis:secondaryObjectTypeIds"; value = texts x.now.secondary }) }
{
    let id = Text::from_str(alloc, "cmis:secondaryObjectTypeIds")?;
    let value = texts(alloc, x.secondary.as_slice())?;
    Ok(Slot { id, value })
}

fn with_first(slots: Vec<Slot>, first: Slot) -> Result<Vec<Slot>, AllocError>
    ensures { IfOk result (λ all. all.items ≡ first ∷ slots.items) }
{
    let mut slots = slots;
    slots.insert(0, first)?;
    Ok(slots)
}

fn with_secondary(alloc: Global, x: &Object) -> Result<Vec<Slot>, AllocError>
    ensures { IfOk result (λ all. all.items ≡
        record { id = codes "cmis:secondaryObjectTypeIds"; value = texts x.now.secondary } ∷ x.now.values) }
{
    let values = x.values.copied(alloc)?;
    let slot = secondary_slot(alloc, x)?;
    with_first(values.into_vec(), slot)
}

fn with_kind(alloc: Global, x: &Object) -> Result<Vec<Slot>, AllocError>
    ensures { IfOk result (λ all. all.items ≡
        record { id = codes "cmis:objectTypeId"; value = words x.now.kind }
        ∷ record { id = codes "cmis:secondaryObjectTypeIds"; value = texts x.now.secondary } ∷ x.now.values) }
{
    let slots = with_secondary(alloc, x)?;
    let slot = text_slot(alloc, "cmis:objectTypeId", x.kind.as_str())?;
    with_first(slots, slot)
}

/// The values that a form may give, with those that are kept apart.
pub fn form_slots(alloc: Global, state: &State, x: &Object) -> Result<Values, AllocError>
    ensures { IfOk result (λ v. v ≡ form_slots state.now x.now) }
{
    let slots = with_kind(alloc, x)?;
    let slot = text_slot(alloc, "cmis:name", name_of(state, x))?;
    let all = with_first(slots, slot)?;
    Ok(Items::from_vec(all))
}

// The slots with the comment of a check-in in place of an older one.
fn commented(
    alloc: Global,
    slots: Vec<Slot>,
    comment: &Option<Text>,
) -> Result<Vec<Slot>, AllocError>
    ensures { IfOk result (λ all. all.items ≡ with_comment slots.items comment.now) }
{
    let others = only_others(slots);
    match comment {
        Some(text) => {
            let slot = text_slot(alloc, "cmis:checkinComment", text.as_str())?;
            with_first(others, slot)
        }
        None => Ok(others),
    }
}

/// The values with the comment of the check-in.
pub fn kept_with_comment(
    alloc: Global,
    values: Values,
    comment: &Option<Text>,
) -> Result<Values, AllocError>
    ensures { IfOk result (λ v. v ≡ with_comment values comment.now) }
{
    let all = commented(alloc, values.into_vec(), comment)?;
    Ok(Items::from_vec(all))
}

// Another child has the name in one of these folders of the entry.
fn is_taken_among(state: &State, folders: &Map<u64, Oid>, n: Oid, name: &Text) -> bool
    ensures { result ≡ list_any (λ e. is_taken state.now e.1 n name.now) folders.now }
{
    let mut found = false;
    for entry in folders.iter() {
        let at: &(u64, Oid) = entry;
        found = state.is_taken(at.1, n, name) || found;
    }
    found
}

/// Whether another child has the name in one of the folders in which the entry is filed.
pub fn is_taken_anywhere(state: &State, n: Oid, name: &Text) -> bool
    ensures { result ≡ is_taken_anywhere state.now n name.now }
{
    match state.folders(n) {
        Some(folders) => is_taken_among(state, folders, n, name),
        None => false,
    }
}
