//! What the JSON of a type asks for. A value of another kind asks for nothing.
ghost use Rattle.std.specs.Prelude.{◌≡◌, ◌++◌, ◌∷◌, [], IfOk, OnOk, map, filter_map, option_map, option_and_then, unwrap_or, codes};
ghost use Rattle.serde_json.specs.Find.{as_str, as_bool, as_array, as_object};
ghost use Rattle.serde_json.specs.View.{view, items_view, members_view};
ghost use Rattle.json_text.specs.Keys.{value_at, as_whole};
ghost use Rattle.type_json.specs.Reading.{text_in, id_in, base_in, flag_in, whole_in, list_in, texts_in, number_scalar, scalar_of, scalars_in, choice_of, choices_in, prop_kind, prop_request, prop_requests, flag_within, mutability_request, type_request};
ghost use Rattle.type_keys.specs.Keys.{pairs_of};
ghost use Rattle.type_keys.specs.Words.{content_of, kind_of, cardinality_of, updatability_of};

use cm_base::items::Items;
use cm_base::text::{Text, Texts};
use cm_base::value::{Scalar, Scalars};
use cm_types::definition::ContentAllowed;
use cm_types::property::{Cardinality, Choice, Choices, PropertyKind, Updatability};
use cm_types::request::{MutabilityRequest, PropRequest, PropRequests, TypeRequest};
use serde_json::{Map, Value};
use std::alloc::{AllocError, Global};
use type_keys::shape::value_at;
use type_keys::word::{cardinality_of, content_of, kind_of, updatability_of};

fn text_of(value: &Value) -> Option<&str>
    ensures { option_map (λ s. s.now) result ≡ as_str (view value.now) }
{
    match value {
        Value::String(text) => Some(text.as_str()),
        _ => None,
    }
}

fn flag_of(value: &Value) -> Option<bool>
    ensures { result ≡ as_bool (view value.now) }
{
    match value {
        Value::Bool(flag) => Some(*flag),
        _ => None,
    }
}

fn whole_of(value: &Value) -> Option<i64>
    ensures { result ≡ as_whole (view value.now) }
{
    match value {
        Value::Number(number) => number.as_i64(),
        _ => None,
    }
}

fn array_of(value: &Value) -> Option<&[Value]>
    ensures { option_map (λ l. items_view l.now) result ≡ as_array (view value.now) }
{
    match value {
        Value::Array(list) => Some(list.as_slice()),
        _ => None,
    }
}

fn object_of(value: &Value) -> Option<&Map<String, Value>>
    ensures { option_map (λ m. members_view m.now.entries) result ≡ as_object (view value.now) }
{
    match value {
        Value::Object(members) => Some(members),
        _ => None,
    }
}

/// The string at a key.
pub fn text_in<'a>(value: &'a Value, key: &str) -> Option<&'a str>
    ensures { option_map (λ s. s.now) result ≡ text_in key.now (view value.now) }
{
    match value_at(value, key) {
        Some(found) => text_of(found),
        None => None,
    }
}

fn flag_in(value: &Value, key: &str) -> Option<bool>
    ensures { result ≡ flag_in key.now (view value.now) }
{
    match value_at(value, key) {
        Some(found) => flag_of(found),
        None => None,
    }
}

fn whole_in(value: &Value, key: &str) -> Option<i64>
    ensures { result ≡ whole_in key.now (view value.now) }
{
    match value_at(value, key) {
        Some(found) => whole_of(found),
        None => None,
    }
}

fn array_in<'a>(value: &'a Value, key: &str) -> Option<&'a [Value]>
    ensures { option_map (λ l. items_view l.now) result ≡ option_and_then as_array (value_at key.now (view value.now)) }
{
    match value_at(value, key) {
        Some(found) => array_of(found),
        None => None,
    }
}

#[tactic(auto, using(crate::proofs::Views::list_view))]
fn list_in<'a>(value: &'a Value, key: &str) -> Option<&'a [Value]>
    ensures { option_map (λ l. map view l.now) result ≡ list_in key.now (view value.now) }
{
    match array_in(value, key) {
        Some(list) => Some(list),
        None => None,
    }
}

/// The members of the property definitions.
pub fn props_of(value: &Value) -> Option<&Map<String, Value>>
    ensures { option_map (λ m. members_view m.now.entries) result ≡ option_and_then as_object (value_at (codes "propertyDefinitions") (view value.now)) }
{
    match value_at(value, "propertyDefinitions") {
        Some(found) => object_of(found),
        None => None,
    }
}

/// The id, empty where there is none.
pub fn id_in(value: &Value) -> &str
    ensures { result.now ≡ id_in (view value.now) }
{
    match text_in(value, "id") {
        Some(text) => text,
        None => "",
    }
}

/// The id of the base type, empty where there is none.
pub fn base_in(value: &Value) -> &str
    ensures { result.now ≡ base_in (view value.now) }
{
    match text_in(value, "baseId") {
        Some(text) => text,
        None => "",
    }
}

fn own_text(alloc: Global, value: &Value, key: &str) -> Result<Option<Text>, AllocError>
    ensures { IfOk result (λ o. o ≡ text_in key.now (view value.now)) }
{
    match text_in(value, key) {
        Some(text) => Ok(Some(Text::from_str(alloc, text)?)),
        None => Ok(None),
    }
}

fn text_or_empty(alloc: Global, value: &Value, key: &str) -> Result<Text, AllocError>
    ensures { IfOk result (λ t. t ≡ unwrap_or (text_in key.now (view value.now)) []) }
{
    match text_in(value, key) {
        Some(text) => Text::from_str(alloc, text),
        None => Ok(Text::empty(alloc)),
    }
}

fn push_text(alloc: Global, all: &mut Texts, value: &Value) -> Result<(), AllocError>
    ensures { OnOk result (all.new ≡ all.old ++ filter_map as_str (view value.now ∷ [])) }
{
    match text_of(value) {
        Some(text) => all.push(Text::from_str(alloc, text)?),
        None => Ok(()),
    }
}

#[tactic(auto, using(crate::proofs::Views::kept_more))]
fn texts_of(alloc: Global, values: &[Value]) -> Result<Texts, AllocError>
    ensures { IfOk result (λ all. all ≡ filter_map as_str (map view values.now)) }
{
    let mut all = Items::new(alloc);
    for value in values {
        push_text(alloc, &mut all, value)?;
    }
    Ok(all)
}

fn texts_in(alloc: Global, value: &Value, key: &str) -> Result<Option<Texts>, AllocError>
    ensures { IfOk result (λ o. o ≡ texts_in key.now (view value.now)) }
{
    match list_in(value, key) {
        Some(values) => Ok(Some(texts_of(alloc, values)?)),
        None => Ok(None),
    }
}

fn number_scalar(kind: PropertyKind, number: i64) -> Scalar
    ensures { result ≡ number_scalar kind number }
{
    match kind {
        PropertyKind::Datetime => Scalar::Time(number),
        _ => Scalar::Whole(number),
    }
}

fn scalar_of(alloc: Global, kind: PropertyKind, value: &Value) -> Result<Option<Scalar>, AllocError>
    ensures { IfOk result (λ o. o ≡ scalar_of kind (view value.now)) }
{
    match value {
        Value::Bool(flag) => Ok(Some(Scalar::Flag(*flag))),
        Value::Number(number) => match number.as_i64() {
            Some(whole) => Ok(Some(number_scalar(kind, whole))),
            None => Ok(None),
        },
        Value::String(text) => Ok(Some(Scalar::Words(Text::from_str(alloc, text.as_str())?))),
        _ => Ok(None),
    }
}

fn push_scalar(
    alloc: Global,
    all: &mut Scalars,
    kind: PropertyKind,
    value: &Value,
) -> Result<(), AllocError>
    ensures { OnOk result (all.new ≡ all.old ++ filter_map (scalar_of kind) (view value.now ∷ [])) }
{
    match scalar_of(alloc, kind, value)? {
        Some(scalar) => all.push(scalar),
        None => Ok(()),
    }
}

#[tactic(auto, using(crate::proofs::Views::kept_more))]
fn scalars_of(alloc: Global, kind: PropertyKind, values: &[Value]) -> Result<Scalars, AllocError>
    ensures { IfOk result (λ all. all ≡ filter_map (scalar_of kind) (map view values.now)) }
{
    let mut all = Items::new(alloc);
    for value in values {
        push_scalar(alloc, &mut all, kind, value)?;
    }
    Ok(all)
}

fn scalars_in(
    alloc: Global,
    kind: PropertyKind,
    value: &Value,
    key: &str,
) -> Result<Option<Scalars>, AllocError>
    ensures { IfOk result (λ o. o ≡ scalars_in kind key.now (view value.now)) }
{
    match list_in(value, key) {
        Some(values) => Ok(Some(scalars_of(alloc, kind, values)?)),
        None => Ok(None),
    }
}

fn choice_scalar(
    alloc: Global,
    kind: PropertyKind,
    value: &Value,
) -> Result<Option<Scalar>, AllocError>
    ensures { IfOk result (λ o. o ≡ option_and_then (scalar_of kind) (value_at (codes "value") (view value.now))) }
{
    match value_at(value, "value") {
        Some(found) => scalar_of(alloc, kind, found),
        None => Ok(None),
    }
}

fn choice_of(alloc: Global, kind: PropertyKind, value: &Value) -> Result<Option<Choice>, AllocError>
    ensures { IfOk result (λ o. o ≡ choice_of kind (view value.now)) }
{
    match choice_scalar(alloc, kind, value)? {
        Some(scalar) => {
            let display_name = text_or_empty(alloc, value, "displayName")?;
            Ok(Some(Choice {
                display_name,
                value: scalar,
            }))
        }
        None => Ok(None),
    }
}

fn push_choice(
    alloc: Global,
    all: &mut Choices,
    kind: PropertyKind,
    value: &Value,
) -> Result<(), AllocError>
    ensures { OnOk result (all.new ≡ all.old ++ filter_map (choice_of kind) (view value.now ∷ [])) }
{
    match choice_of(alloc, kind, value)? {
        Some(choice) => all.push(choice),
        None => Ok(()),
    }
}

#[tactic(auto, using(crate::proofs::Views::kept_more))]
fn choices_of(alloc: Global, kind: PropertyKind, values: &[Value]) -> Result<Choices, AllocError>
    ensures { IfOk result (λ all. all ≡ filter_map (choice_of kind) (map view values.now)) }
{
    let mut all = Items::new(alloc);
    for value in values {
        push_choice(alloc, &mut all, kind, value)?;
    }
    Ok(all)
}

fn choices_in(
    alloc: Global,
    kind: PropertyKind,
    value: &Value,
    key: &str,
) -> Result<Option<Choices>, AllocError>
    ensures { IfOk result (λ o. o ≡ choices_in kind key.now (view value.now)) }
{
    match list_in(value, key) {
        Some(values) => Ok(Some(choices_of(alloc, kind, values)?)),
        None => Ok(None),
    }
}

fn kind_in(value: &Value) -> PropertyKind
    ensures { result ≡ prop_kind (view value.now) }
{
    match text_in(value, "propertyType") {
        Some(text) => kind_of(text).unwrap_or(PropertyKind::String),
        None => PropertyKind::String,
    }
}

fn cardinality_in(value: &Value) -> Option<Cardinality>
    ensures { result ≡ option_and_then cardinality_of (text_in (codes "cardinality") (view value.now)) }
{
    match text_in(value, "cardinality") {
        Some(text) => cardinality_of(text),
        None => None,
    }
}

fn updatability_in(value: &Value) -> Option<Updatability>
    ensures { result ≡ option_and_then updatability_of (text_in (codes "updatability") (view value.now)) }
{
    match text_in(value, "updatability") {
        Some(text) => updatability_of(text),
        None => None,
    }
}

fn content_in(value: &Value) -> Option<ContentAllowed>
    ensures { result ≡ option_and_then content_of (text_in (codes "contentStreamAllowed") (view value.now)) }
{
    match text_in(value, "contentStreamAllowed") {
        Some(text) => content_of(text),
        None => None,
    }
}

fn own_choices(alloc: Global, value: &Value) -> Result<Option<Choices>, AllocError>
    ensures { IfOk result (λ o. o ≡ choices_in (prop_kind (view value.now)) (codes "choice") (view value.now)) }
{
    let all = choices_in(alloc, kind_in(value), value, "choice")?;
    Ok(all)
}

fn own_default(alloc: Global, value: &Value) -> Result<Option<Scalars>, AllocError>
    ensures { IfOk result (λ o. o ≡ scalars_in (prop_kind (view value.now)) (codes "defaultValue") (view value.now)) }
{
    let all = scalars_in(alloc, kind_in(value), value, "defaultValue")?;
    Ok(all)
}

fn prop_request(alloc: Global, value: &Value) -> Result<PropRequest, AllocError>
    ensures { IfOk result (λ p. p ≡ prop_request (view value.now)) }
{
    Ok(PropRequest {
        id: Text::from_str(alloc, id_in(value))?,
        local_name: own_text(alloc, value, "localName")?,
        local_namespace: own_text(alloc, value, "localNamespace")?,
        display_name: own_text(alloc, value, "displayName")?,
        query_name: own_text(alloc, value, "queryName")?,
        description: own_text(alloc, value, "description")?,
        kind: kind_in(value),
        cardinality: cardinality_in(value),
        updatability: updatability_in(value),
        required: flag_in(value, "required"),
        queryable: flag_in(value, "queryable"),
        orderable: flag_in(value, "orderable"),
        open_choice: flag_in(value, "openChoice"),
        choices: own_choices(alloc, value)?,
        default: own_default(alloc, value)?,
        max_length: whole_in(value, "maxLength"),
        min_value: whole_in(value, "minValue"),
        max_value: whole_in(value, "maxValue"),
    })
}

fn each_prop(alloc: Global, members: &Map<String, Value>) -> Result<PropRequests, AllocError>
    ensures { IfOk result (λ all. all ≡ map (λ m. prop_request (view m.1)) members.now.entries) }
{
    let mut all = Items::new(alloc);
    for (_, value) in members.iter() {
        all.push(prop_request(alloc, value)?)?;
    }
    Ok(all)
}

#[tactic(auto, using(crate::proofs::Views::map_members))]
fn prop_requests_of(alloc: Global, members: &Map<String, Value>) -> Result<PropRequests, AllocError>
    ensures { IfOk result (λ all. all ≡ map (λ p. prop_request p.1) (pairs_of (members_view members.now.entries))) }
{
    let all = each_prop(alloc, members)?;
    Ok(all)
}

fn prop_requests(alloc: Global, value: &Value) -> Result<PropRequests, AllocError>
    ensures { IfOk result (λ all. all ≡ prop_requests (view value.now)) }
{
    match props_of(value) {
        Some(members) => prop_requests_of(alloc, members),
        None => Ok(Items::new(alloc)),
    }
}

fn flag_within(within: Option<&Value>, key: &str) -> Option<bool>
    ensures { result ≡ flag_within key.now (option_map (λ v. view v.now) within.entry) }
{
    match within {
        Some(value) => flag_in(value, key),
        None => None,
    }
}

fn mutability_within(within: Option<&Value>) -> MutabilityRequest
    ensures { result ≡ mutability_request (option_map (λ v. view v.now) within.entry) }
{
    MutabilityRequest {
        create: flag_within(within, "create"),
        update: flag_within(within, "update"),
        delete: flag_within(within, "delete"),
    }
}

fn mutability_in(value: &Value) -> MutabilityRequest
    ensures { result ≡ mutability_request (value_at (codes "typeMutability") (view value.now)) }
{
    mutability_within(value_at(value, "typeMutability"))
}

/// What is asked of a type.
pub fn type_request(alloc: Global, value: &Value) -> Result<TypeRequest, AllocError>
    ensures { IfOk result (λ q. q ≡ type_request (view value.now)) }
{
    Ok(TypeRequest {
        id: Text::from_str(alloc, id_in(value))?,
        base: Text::from_str(alloc, base_in(value))?,
        parent: own_text(alloc, value, "parentId")?,
        local_name: own_text(alloc, value, "localName")?,
        local_namespace: own_text(alloc, value, "localNamespace")?,
        display_name: own_text(alloc, value, "displayName")?,
        query_name: own_text(alloc, value, "queryName")?,
        description: own_text(alloc, value, "description")?,
        creatable: flag_in(value, "creatable"),
        fileable: flag_in(value, "fileable"),
        queryable: flag_in(value, "queryable"),
        fulltext_indexed: flag_in(value, "fulltextIndexed"),
        included_in_supertype_query: flag_in(value, "includedInSupertypeQuery"),
        controllable_policy: flag_in(value, "controllablePolicy"),
        controllable_acl: flag_in(value, "controllableACL"),
        mutability: mutability_in(value),
        versionable: flag_in(value, "versionable"),
        content_allowed: content_in(value),
        allowed_source_types: texts_in(alloc, value, "allowedSourceTypes")?,
        allowed_target_types: texts_in(alloc, value, "allowedTargetTypes")?,
        properties: prop_requests(alloc, value)?,
    })
}
