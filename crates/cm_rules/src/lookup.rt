//! Look-ups by id.
ghost use Rattle.std.specs.Prelude.{◌≡◌, find, option_copied, map};
ghost use Rattle.cm_map.specs.Parts.{pointee};
ghost use Rattle.cm_types.specs.Properties.{def_of, slot_in, given_of};

use cm_base::text::Text;
use cm_base::value::{Slot, Value};
use cm_types::given::Given;
use cm_types::property::PropDef;

/// The definition of a property.
pub fn def_of<'a>(defs: &[&'a PropDef], id: &Text) -> Option<&'a PropDef>
    ensures { option_copied result ≡ def_of (map pointee defs.now) id.now }
{
    for def in defs {
        if def.id.is(id) {
            return Some(*def);
        }
    }
    None
}

/// The given property with the id.
pub fn given_of<'a>(given: &'a [Given], id: &Text) -> Option<&'a Given>
    ensures { option_copied result ≡ given_of given.now id.now }
{
    given.iter().find(|g| g.id.is(id))
}

/// The value at the id, where there is one.
pub fn slot_in<'a>(slots: &'a [Slot], id: &Text) -> Option<&'a Value>
    ensures { option_copied result ≡ slot_in slots.now id.now }
{
    match slots.iter().find(|s| s.id.is(id)) {
        Some(slot) => Some(&slot.value),
        None => None,
    }
}
