//! The values of an object's properties as the caller sees them.
ghost use Rattle.std.specs.Prelude.{◌≡◌, bytes_eq, decimal, find, IfOk, Option, Some, None, option_map};
ghost use Rattle.std.specs.Option.{option_copied};
ghost use Rattle.cm_base.specs.declared.value.Scalar.TheVariants.{Time};
ghost use Rattle.cm_base.specs.declared.value.Value.TheVariants.{One};
ghost use Rattle.cm_types.specs.Types.{base_of};
ghost use Rattle.cm_types.specs.Properties.{value_in};
ghost use Rattle.cmis_spec.specs.Repository.{name_of, series_of};
ghost use Rattle.cmis_spec.specs.Values.{words};
ghost use Rattle.cm_types.specs.Changes.{base_id};
ghost use Rattle.cm_see.specs.Shown.{content_of, length_value, number, parent_value, path_value, property_value, system_value, words_or_unset};

use crate::path::path_of;
use crate::system::{SystemProperty, find_system};
use crate::value::{flag, number_or_unset, number_words, texts, words};
use crate::version::{
    checked_out_by, checked_out_id, checked_out_owner, is_immutable, is_latest_major,
    is_latest_version, is_major_version, version_label,
};
use cm_base::copies::Copies;
use cm_base::number::Moment;
use cm_base::object::Object;
use cm_base::text::Text;
use cm_base::value::{Scalar, Slot, Value};
use cm_state::look::entry_of;
use cm_state::state::State;
use cm_types::definition::BaseType;
use std::alloc::{AllocError, Global};

fn time(moment: Moment) -> Value
    ensures { result ≡ One (Time moment.0) }
{
    Value::One(Scalar::Time(moment.0))
}

fn text(alloc: Global, text: &Text) -> Result<Value, AllocError>
    ensures { IfOk result (λ v. v ≡ words text.now) }
{
    let text = text.copied(alloc)?;
    Ok(Value::One(Scalar::Words(text)))
}

fn name(alloc: Global, state: &State, x: &Object) -> Result<Value, AllocError>
    ensures { IfOk result (λ v. v ≡ words (name_of state.now x.now)) }
{
    match &x.name {
        Some(own) => text(alloc, own),
        None => words(alloc, state.entry_text(entry_of(x))),
    }
}

fn base(alloc: Global, state: &State, x: &Object) -> Result<Value, AllocError>
    ensures { IfOk result (λ v. v ≡ words_or_unset (option_map base_id (base_of state.now.types x.now.kind))) }
{
    match state.type_named(&x.kind) {
        Some(def) => words(alloc, def.base.id()),
        None => Ok(Value::Unset),
    }
}

fn parent(alloc: Global, state: &State, x: &Object) -> Result<Value, AllocError>
    ensures { IfOk result (λ v. v ≡ parent_value state.now x.now) }
{
    if !state.is_a(BaseType::Folder, x) {
        return Ok(Value::Unset);
    }
    match state.parent(x.id) {
        Some(above) => number_words(alloc, above.0),
        None => Ok(Value::Unset),
    }
}

fn path(alloc: Global, state: &State, x: &Object) -> Result<Value, AllocError>
    ensures { IfOk result (λ v. v ≡ path_value state.now x.now) }
{
    if !state.is_a(BaseType::Folder, x) {
        return Ok(Value::Unset);
    }
    let path = path_of(alloc, state, x.id)?;
    Ok(Value::One(Scalar::Words(path)))
}

fn series_id(alloc: Global, state: &State, x: &Object) -> Result<Value, AllocError>
    ensures { IfOk result (λ v. v ≡ words_or_unset (option_map (λ s. decimal s.id.0) (series_of state.now x.now))) }
{
    match state.series_of(x) {
        Some(series) => number_words(alloc, series.id.0),
        None => Ok(Value::Unset),
    }
}

fn number(n: u64) -> Result<Value, AllocError>
    ensures { IfOk result (λ v. v ≡ number n) }
{
    match i64::try_from(n) {
        Ok(whole) => Ok(Value::One(Scalar::Whole(whole))),
        Err(_) => Err(AllocError),
    }
}

fn content_length(state: &State, x: &Object) -> Result<Value, AllocError>
    ensures { IfOk result (λ v. v ≡ length_value state.now x.now) }
{
    match state.content(x.id) {
        Some(content) => number(content.stream.pieces.len()),
        None => Ok(Value::Unset),
    }
}

fn content_type(alloc: Global, state: &State, x: &Object) -> Result<Value, AllocError>
    ensures { IfOk result (λ v. v ≡ words_or_unset (option_map (λ c. c.stream.kind) (content_of state.now x.now))) }
{
    match state.content(x.id) {
        Some(content) => words(alloc, content.stream.kind.as_str()),
        None => Ok(Value::Unset),
    }
}

fn content_file(alloc: Global, state: &State, x: &Object) -> Result<Value, AllocError>
    ensures { IfOk result (λ v. v ≡ words_or_unset (option_map (λ c. c.stream.file) (content_of state.now x.now))) }
{
    match state.content(x.id) {
        Some(content) => text(alloc, &content.stream.file),
        None => Ok(Value::Unset),
    }
}

fn content_id(alloc: Global, state: &State, x: &Object) -> Result<Value, AllocError>
    ensures { IfOk result (λ v. v ≡ words_or_unset (option_map (λ c. decimal c.step) (content_of state.now x.now))) }
{
    match state.content(x.id) {
        Some(content) => number_words(alloc, content.step),
        None => Ok(Value::Unset),
    }
}

pub(crate) fn system_value(
    alloc: Global,
    state: &State,
    user: &Text,
    x: &Object,
    property: SystemProperty,
) -> Result<Value, AllocError>
    ensures { IfOk result (λ v. v ≡ system_value state.now user.now x.now property) }
{
    match property {
        SystemProperty::Name => name(alloc, state, x),
        SystemProperty::ObjectId => number_words(alloc, x.id.0),
        SystemProperty::BaseTypeId => base(alloc, state, x),
        SystemProperty::ObjectTypeId => text(alloc, &x.kind),
        SystemProperty::SecondaryObjectTypeIds => texts(alloc, x.secondary.as_slice()),
        SystemProperty::CreatedBy => text(alloc, &x.created_by),
        SystemProperty::CreationDate => Ok(time(x.created_at)),
        SystemProperty::LastModifiedBy => text(alloc, &x.modified_by),
        SystemProperty::LastModificationDate => Ok(time(x.modified_at)),
        SystemProperty::ChangeToken => number_words(alloc, x.token),
        SystemProperty::ParentId => parent(alloc, state, x),
        SystemProperty::Path => path(alloc, state, x),
        SystemProperty::IsImmutable => Ok(flag(is_immutable(state, x))),
        SystemProperty::IsLatestVersion => Ok(flag(is_latest_version(state, x))),
        SystemProperty::IsMajorVersion => Ok(flag(is_major_version(state, x))),
        SystemProperty::IsLatestMajorVersion => Ok(flag(is_latest_major(state, x))),
        SystemProperty::IsPrivateWorkingCopy => Ok(flag(state.owner_of(x).is_some())),
        SystemProperty::VersionLabel => version_label(alloc, state, x),
        SystemProperty::VersionSeriesId => series_id(alloc, state, x),
        SystemProperty::IsVersionSeriesCheckedOut => Ok(flag(checked_out_by(state, x).is_some())),
        SystemProperty::VersionSeriesCheckedOutBy => checked_out_owner(alloc, state, x),
        SystemProperty::VersionSeriesCheckedOutId => {
            number_or_unset(alloc, checked_out_id(state, user, x))
        }
        SystemProperty::ContentStreamLength => content_length(state, x),
        SystemProperty::ContentStreamMimeType => content_type(alloc, state, x),
        SystemProperty::ContentStreamFileName => content_file(alloc, state, x),
        SystemProperty::ContentStreamId => content_id(alloc, state, x),
    }
}

pub(crate) fn find_slot<'a>(slots: &'a [Slot], id: &Text) -> Option<&'a Slot>
    ensures { option_copied result ≡ find (λ s. bytes_eq s.id id.now) slots.now }
{
    slots.iter().find(|s| s.id.is(id))
}

fn kept_value(alloc: Global, slots: &[Slot], id: &Text) -> Result<Value, AllocError>
    ensures { IfOk result (λ v. v ≡ value_in slots.now id.now) }
{
    match find_slot(slots, id) {
        Some(slot) => slot.value.copied(alloc),
        None => Ok(Value::Unset),
    }
}

pub(crate) fn property_value(
    alloc: Global,
    state: &State,
    user: &Text,
    x: &Object,
    id: &Text,
) -> Result<Value, AllocError>
    ensures { IfOk result (λ v. v ≡ property_value state.now user.now x.now id.now) }
{
    match find_system(id.as_str()) {
        Some(property) => system_value(alloc, state, user, x, property),
        None => kept_value(alloc, x.values.as_slice(), id),
    }
}
