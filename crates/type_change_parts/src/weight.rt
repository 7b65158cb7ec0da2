//! What a write on types adds to the cost of the repository.
ghost use Rattle.std.specs.Prelude.{◌≡◌, ◌+◌, ◌++◌};
ghost use Rattle.std.specs.List.{flat_map};
ghost use Rattle.call_parts.specs.Weight.{bounded, text_weight, weight_of_texts};
ghost use Rattle.call_parts.specs.Versions.{maybe};
ghost use Rattle.type_change_parts.specs.Weight.{given, texts_of_scalar, texts_of_choice, texts_of_prop_names, texts_of_prop, texts_of_type_names, texts_of_type, weight_of_create_type, weight_of_update_type, weight_of_delete_type};

use crate::writes::{CreateType, DeleteType, UpdateType};
use cm_base::text::{Text, Texts};
use cm_base::value::{Scalar, Scalars};
use cm_types::property::Choices;
use cm_types::request::{PropRequest, PropRequests, TypeRequest};

fn with_text(so_far: u64, text: &Text) -> u64
    ensures { result ≡ bounded (so_far + text_weight text.now) }
{
    so_far.saturating_add(text.len() as u64).saturating_add(64)
}

fn with_texts(so_far: u64, texts: &[Text]) -> u64
    ensures { result ≡ bounded (so_far + weight_of_texts texts.now) }
{
    let mut total = so_far;
    for text in texts {
        total = with_text(total, text);
    }
    total
}

fn with_maybe(so_far: u64, text: &Option<Text>) -> u64
    ensures { result ≡ bounded (so_far + weight_of_texts (maybe text.now)) }
{
    match text {
        Some(text) => with_text(so_far, text),
        None => so_far,
    }
}

fn with_maybe_texts(so_far: u64, texts: &Option<Texts>) -> u64
    ensures { result ≡ bounded (so_far + weight_of_texts (given texts.now)) }
{
    match texts {
        Some(texts) => with_texts(so_far, texts.as_slice()),
        None => so_far,
    }
}

fn with_scalar(so_far: u64, scalar: &Scalar) -> u64
    ensures { result ≡ bounded (so_far + weight_of_texts (texts_of_scalar scalar.now)) }
{
    match scalar {
        Scalar::Words(text) => with_text(so_far, text),
        Scalar::Flag(_) => so_far,
        Scalar::Whole(_) => so_far,
        Scalar::Time(_) => so_far,
    }
}

fn with_scalars(so_far: u64, scalars: &[Scalar]) -> u64
    ensures { result ≡ bounded (so_far + weight_of_texts (flat_map texts_of_scalar scalars.now)) }
{
    let mut total = so_far;
    for scalar in scalars {
        total = with_scalar(total, scalar);
    }
    total
}

fn with_default(so_far: u64, default: &Option<Scalars>) -> u64
    ensures { result ≡ bounded (so_far + weight_of_texts (flat_map texts_of_scalar (given default.now))) }
{
    match default {
        Some(scalars) => with_scalars(so_far, scalars.as_slice()),
        None => so_far,
    }
}

fn with_choices(so_far: u64, choices: &Choices) -> u64
    ensures { result ≡ bounded (so_far + weight_of_texts (flat_map texts_of_choice choices.now)) }
{
    let mut total = so_far;
    for choice in choices.as_slice() {
        let named = with_text(total, &choice.display_name);
        total = with_scalar(named, &choice.value);
    }
    total
}

fn with_maybe_choices(so_far: u64, choices: &Option<Choices>) -> u64
    ensures { result ≡ bounded (so_far + weight_of_texts (flat_map texts_of_choice (given choices.now))) }
{
    match choices {
        Some(choices) => with_choices(so_far, choices),
        None => so_far,
    }
}

#[tactic(auto, unfolding(crate::specs::Weight::texts_of_prop_names))]
fn with_prop_names(so_far: u64, prop: &PropRequest) -> u64
    ensures { result ≡ bounded (so_far + weight_of_texts (texts_of_prop_names prop.now)) }
{
    let named = with_text(so_far, &prop.id);
    let local = with_maybe(named, &prop.local_name);
    let spaced = with_maybe(local, &prop.local_namespace);
    let displayed = with_maybe(spaced, &prop.display_name);
    let queried = with_maybe(displayed, &prop.query_name);
    with_maybe(queried, &prop.description)
}

fn with_prop(so_far: u64, prop: &PropRequest) -> u64
    ensures { result ≡ bounded (so_far + weight_of_texts (texts_of_prop prop.now)) }
{
    let named = with_prop_names(so_far, prop);
    let chosen = with_maybe_choices(named, &prop.choices);
    with_default(chosen, &prop.default)
}

fn with_props(so_far: u64, props: &PropRequests) -> u64
    ensures { result ≡ bounded (so_far + weight_of_texts (flat_map texts_of_prop props.now)) }
{
    let mut total = so_far;
    for prop in props.as_slice() {
        total = with_prop(total, prop);
    }
    total
}

#[tactic(auto, unfolding(crate::specs::Weight::texts_of_type_names))]
fn with_type_names(so_far: u64, definition: &TypeRequest) -> u64
    ensures { result ≡ bounded (so_far + weight_of_texts (texts_of_type_names definition.now)) }
{
    let based = with_text(with_text(so_far, &definition.id), &definition.base);
    let below = with_maybe(based, &definition.parent);
    let local = with_maybe(below, &definition.local_name);
    let spaced = with_maybe(local, &definition.local_namespace);
    let displayed = with_maybe(spaced, &definition.display_name);
    let queried = with_maybe(displayed, &definition.query_name);
    with_maybe(queried, &definition.description)
}

fn with_type(so_far: u64, definition: &TypeRequest) -> u64
    ensures { result ≡ bounded (so_far + weight_of_texts (texts_of_type definition.now)) }
{
    let named = with_type_names(so_far, definition);
    let sources = with_maybe_texts(named, &definition.allowed_source_types);
    let targets = with_maybe_texts(sources, &definition.allowed_target_types);
    with_props(targets, &definition.properties)
}

/// What a createType weighs: 64 for the call, and for each text of the definition its bytes and 64. Takes no memory.
pub fn weight_of_create_type(call: &CreateType) -> u64
    ensures { result ≡ weight_of_create_type call.now }
{
    with_type(64, &call.definition)
}

/// What an updateType weighs, as a createType of the definition.
pub fn weight_of_update_type(call: &UpdateType) -> u64
    ensures { result ≡ weight_of_update_type call.now }
{
    with_type(64, &call.definition)
}

/// What a deleteType weighs: 64 for the call, and the bytes of the type's id and 64.
pub fn weight_of_delete_type(call: &DeleteType) -> u64
    ensures { result ≡ weight_of_delete_type call.now }
{
    with_text(64, &call.type_id)
}
