//! The values that a document takes over from its source.
ghost use Rattle.std.specs.Prelude.{◌≡◌, IfOk, map};
ghost use Rattle.cm_map.specs.Parts.{pointee};
ghost use Rattle.cm_base.specs.declared.value.Scalar.TheVariants.{Words};
ghost use Rattle.cm_types.specs.Properties.{value_in};
ghost use Rattle.cmis_spec.specs.Values.{words, texts, form_value};
ghost use Rattle.wr_source.specs.Templates.{copied_value, copied_slots};

use cm_base::copies::Copies;
use cm_base::items::Items;
use cm_base::object::Object;
use cm_base::text::Text;
use cm_base::value::{Scalar, Scalars, Slot, Value, Values};
use cm_rules::lookup::slot_in;
use cm_state::state::State;
use cm_types::property::PropDef;
use std::alloc::{AllocError, Global};
use wr_rules::copied::name_of;

fn words(alloc: Global, text: &str) -> Result<Value, AllocError>
    ensures { IfOk result (λ v. v ≡ words text.now) }
{
    let text = Text::from_str(alloc, text)?;
    Ok(Value::One(Scalar::Words(text)))
}

fn scalars(alloc: Global, texts: &[Text]) -> Result<Scalars, AllocError>
    ensures { IfOk result (λ all. all ≡ map Words texts.now) }
{
    let mut all = Items::new(alloc);
    for text in texts {
        all.push(Scalar::Words(text.copied(alloc)?))?;
    }
    Ok(all)
}

// A list of texts; the empty list is unset.
fn texts(alloc: Global, items: &[Text]) -> Result<Value, AllocError>
    ensures { IfOk result (λ v. v ≡ texts items.now) }
{
    match items {
        [] => Ok(Value::Unset),
        _ => {
            let all = scalars(alloc, items)?;
            Ok(Value::Many(all))
        }
    }
}

fn value_in(alloc: Global, slots: &[Slot], id: &Text) -> Result<Value, AllocError>
    ensures { IfOk result (λ v. v ≡ value_in slots.now id.now) }
{
    match slot_in(slots, id) {
        Some(value) => value.copied(alloc),
        None => Ok(Value::Unset),
    }
}

// The value of a property, also of the three that are kept beside the others.
fn form_value(alloc: Global, state: &State, x: &Object, id: &Text) -> Result<Value, AllocError>
    ensures { IfOk result (λ v. v ≡ form_value state.now x.now id.now) }
{
    if id.is_str("cmis:name") {
        words(alloc, name_of(state, x))
    } else if id.is_str("cmis:objectTypeId") {
        words(alloc, x.kind.as_str())
    } else if id.is_str("cmis:secondaryObjectTypeIds") {
        texts(alloc, x.secondary.as_slice())
    } else {
        value_in(alloc, x.values.as_slice(), id)
    }
}

// The value with which a property is copied: the comment of a check-in never is.
fn copied_value(alloc: Global, state: &State, x: &Object, id: &Text) -> Result<Value, AllocError>
    ensures { IfOk result (λ v. v ≡ copied_value state.now x.now id.now) }
{
    if id.is_str("cmis:checkinComment") {
        Ok(Value::Unset)
    } else {
        form_value(alloc, state, x, id)
    }
}

fn copied_by(
    alloc: Global,
    state: &State,
    x: &Object,
    defs: &[&PropDef],
) -> Result<Values, AllocError>
    ensures { IfOk result (λ all. all
        ≡ map (λ d. record { id = d.id; value = copied_value state.now x.now d.id }) (map pointee defs.now)) }
{
    let mut all = Items::new(alloc);
    for def in defs {
        let value = copied_value(alloc, state, x, &def.id)?;
        let id = def.id.copied(alloc)?;
        all.push(Slot { id, value })?;
    }
    Ok(all)
}

/// The values of all properties of the source, also the unset ones.
pub(crate) fn copied_slots(alloc: Global, state: &State, x: &Object) -> Result<Values, AllocError>
    ensures { IfOk result (λ all. all ≡ copied_slots state.now x.now) }
{
    let defs = state
        .types()
        .props_of(alloc, &x.kind, x.secondary.as_slice())?;
    let all = copied_by(alloc, state, x, &defs)?;
    Ok(all)
}
