//! The values of properties, seen where they stand: what the state holds is not copied.
ghost use Rattle.std.specs.Prelude.{◌≡◌, IfOk, option_map};
ghost use Rattle.cm_base.specs.declared.value.Value.TheVariants.{Unset};
ghost use Rattle.cm_types.specs.Changes.{base_id};
ghost use Rattle.cm_types.specs.Properties.{value_in};
ghost use Rattle.cm_types.specs.Types.{base_of};
ghost use Rattle.cmis_spec.specs.Repository.{name_of};
ghost use Rattle.cm_see.specs.Seen.{value_seen};
ghost use Rattle.cm_see.specs.Shown.{parent_value, system_value, words_or_unset};

use crate::property::{find_slot, system_value};
use crate::system::SystemProperty;
use cm_base::object::Object;
use cm_base::text::Text;
use cm_base::value::{Slot, Value};
use cm_state::look::entry_of;
use cm_state::state::State;
use cm_types::definition::BaseType;
use std::alloc::{AllocError, Global};

/// A property's value; contracts say `value_seen` for it.
#[derive(Drop)]
pub enum PropertyValue<'a> {
    Text(&'a str),
    /// The digits of a number, as a text.
    Digits(u64),
    /// A value that is kept with the object.
    Kept(&'a Value),
    /// A value that was made for this reply.
    Made(Value),
}

fn name<'a>(state: &'a State, x: &'a Object) -> &'a str
    ensures { result.now ≡ name_of state.now x.now }
{
    match &x.name {
        Some(own) => own.as_str(),
        None => state.entry_text(entry_of(x)),
    }
}

fn base<'a>(state: &'a State, x: &Object) -> PropertyValue<'a>
    ensures { value_seen result ≡ words_or_unset (option_map base_id (base_of state.now.types x.now.kind)) }
{
    match state.type_named(&x.kind) {
        Some(def) => PropertyValue::Text(def.base.id()),
        None => PropertyValue::Made(Value::Unset),
    }
}

fn parent<'a>(state: &'a State, x: &Object) -> PropertyValue<'a>
    ensures { value_seen result ≡ parent_value state.now x.now }
{
    if !state.is_a(BaseType::Folder, x) {
        return PropertyValue::Made(Value::Unset);
    }
    match state.parent(x.id) {
        Some(above) => PropertyValue::Digits(above.0),
        None => PropertyValue::Made(Value::Unset),
    }
}

/// The value of a property that the repository sets.
pub fn system_seen<'a>(
    alloc: Global,
    state: &'a State,
    user: &Text,
    x: &'a Object,
    property: SystemProperty,
) -> Result<PropertyValue<'a>, AllocError>
    ensures { IfOk result (λ v. value_seen v ≡ system_value state.now user.now x.now property) }
{
    match property {
        SystemProperty::Name => Ok(PropertyValue::Text(name(state, x))),
        SystemProperty::ObjectId => Ok(PropertyValue::Digits(x.id.0)),
        SystemProperty::BaseTypeId => Ok(base(state, x)),
        SystemProperty::ObjectTypeId => Ok(PropertyValue::Text(x.kind.as_str())),
        SystemProperty::CreatedBy => Ok(PropertyValue::Text(x.created_by.as_str())),
        SystemProperty::LastModifiedBy => Ok(PropertyValue::Text(x.modified_by.as_str())),
        SystemProperty::ChangeToken => Ok(PropertyValue::Digits(x.token)),
        SystemProperty::ParentId => Ok(parent(state, x)),
        _ => {
            let value = system_value(alloc, state, user, x, property)?;
            Ok(PropertyValue::Made(value))
        }
    }
}

/// The value that is kept of a property; unset where none is. Takes no memory.
pub fn kept_seen<'a>(slots: &'a [Slot], id: &Text) -> PropertyValue<'a>
    ensures { value_seen result ≡ value_in slots.now id.now }
{
    match find_slot(slots, id) {
        Some(slot) => PropertyValue::Kept(&slot.value),
        None => PropertyValue::Made(Value::Unset),
    }
}
