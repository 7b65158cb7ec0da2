//! What a write adds to the cost of the repository.
ghost use Rattle.std.specs.Prelude.{◌≡◌, ◌+◌, ◌++◌, [], Some, unwrap_or, option_map};
ghost use Rattle.std.specs.List.{flat_map};
ghost use Rattle.call_parts.specs.Changes.{weight_of_update, weight_of_move, weight_of_set_content, weight_of_append, weight_of_delete_content, weight_of_add, weight_of_remove};
ghost use Rattle.call_parts.specs.Weight.{weight_of_create_folder, weight_of_texts, bounded, text_weight, texts_of_place, texts_of_given, texts_of_ace, texts_of_create_folder};
ghost use Rattle.call_parts.specs.Versions.{maybe, texts_of_stream, bytes_of_stream, weight_of_create_document, weight_of_check_out, weight_of_cancel, weight_of_check_in, weight_of_delete};

use crate::changes::{
    AddToFolder, AppendContent, DeleteContent, MoveObject, RemoveFromFolder, SetContent,
    UpdateProperties,
};
use crate::place::Place;
use crate::stream::GivenStream;
use crate::versions::{CancelCheckOut, CheckIn, CheckOut, CreateDocument, Delete};
use crate::writes::{AceRequests, CreateFolder};
use cm_base::text::{Text, Texts};
use cm_types::given::Givens;

fn with_text(so_far: u64, text: &Text) -> u64
    ensures { result ≡ bounded (so_far + text_weight text.now) }
{
    so_far.saturating_add(text.len() as u64).saturating_add(64)
}

fn with_texts(so_far: u64, texts: &Texts) -> u64
    ensures { result ≡ bounded (so_far + weight_of_texts texts.now) }
{
    let mut total = so_far;
    for text in texts.as_slice() {
        total = with_text(total, text);
    }
    total
}

fn with_place(so_far: u64, place: &Place) -> u64
    ensures { result ≡ bounded (so_far + weight_of_texts (texts_of_place place.now)) }
{
    match place {
        Place::Id(id) => with_text(so_far, id),
        Place::Path(names) => with_texts(so_far, names),
    }
}

fn with_givens(so_far: u64, givens: &Givens) -> u64
    ensures { result ≡ bounded (so_far + weight_of_texts (flat_map texts_of_given givens.now)) }
{
    let mut total = so_far;
    for given in givens.as_slice() {
        total = with_texts(with_text(total, &given.id), &given.texts);
    }
    total
}

fn with_aces(so_far: u64, aces: &AceRequests) -> u64
    ensures { result ≡ bounded (so_far + weight_of_texts (flat_map texts_of_ace aces.now)) }
{
    let mut total = so_far;
    for ace in aces.as_slice() {
        total = with_texts(with_text(total, &ace.principal), &ace.permissions);
    }
    total
}

fn with_create_folder(so_far: u64, call: &CreateFolder) -> u64
    ensures { result ≡ bounded (so_far + weight_of_texts (texts_of_create_folder call.now)) }
{
    let placed = with_place(so_far, &call.place);
    let given = with_givens(placed, &call.properties);
    let ruled = with_texts(given, &call.policies);
    let less = with_aces(ruled, &call.remove);
    with_aces(less, &call.add)
}

/// What a createFolder weighs: 64 for the call, and for each of its texts its bytes and 64. Takes no memory.
pub fn weight_of_create_folder(call: &CreateFolder) -> u64
    ensures { result ≡ weight_of_create_folder call.now }
{
    with_create_folder(64, call)
}

fn with_maybe(so_far: u64, text: &Option<Text>) -> u64
    ensures { result ≡ bounded (so_far + weight_of_texts (maybe text.now)) }
{
    match text {
        Some(text) => with_text(so_far, text),
        None => so_far,
    }
}

fn with_maybe_place(so_far: u64, place: &Option<Place>) -> u64
    ensures { result ≡ bounded (so_far + weight_of_texts (unwrap_or (option_map texts_of_place place.now) [])) }
{
    match place {
        Some(place) => with_place(so_far, place),
        None => so_far,
    }
}

// The media type, the file name where one is given, and the bytes.
fn with_given_stream(so_far: u64, stream: &GivenStream) -> u64
    ensures { result ≡ bounded (so_far + weight_of_texts (texts_of_stream (Some stream.now))
        + bytes_of_stream (Some stream.now)) }
{
    let typed = so_far
        .saturating_add(stream.kind.as_str().len() as u64)
        .saturating_add(64);
    with_maybe(typed, &stream.file).saturating_add(stream.pieces.len())
}

fn with_stream(so_far: u64, stream: &Option<GivenStream>) -> u64
    ensures { result ≡ bounded (so_far + weight_of_texts (texts_of_stream stream.now) + bytes_of_stream stream.now) }
{
    match stream {
        Some(stream) => with_given_stream(so_far, stream),
        None => so_far,
    }
}

// The texts of a createDocument, but those of its stream.
fn with_create_document(so_far: u64, call: &CreateDocument) -> u64
    ensures { result ≡ bounded (so_far + weight_of_texts (unwrap_or (option_map texts_of_place call.now.place) []
        ++ flat_map texts_of_given call.now.properties
        ++ call.now.policies
        ++ flat_map texts_of_ace call.now.remove
        ++ flat_map texts_of_ace call.now.add)) }
{
    let placed = with_maybe_place(so_far, &call.place);
    let given = with_givens(placed, &call.properties);
    let ruled = with_texts(given, &call.policies);
    let less = with_aces(ruled, &call.remove);
    with_aces(less, &call.add)
}

/// What a createDocument weighs: 64 for the call, for each of its texts its bytes and 64, and the bytes of its stream.
pub fn weight_of_create_document(call: &CreateDocument) -> u64
    ensures { result ≡ weight_of_create_document call.now }
{
    let told = with_create_document(64, call);
    with_stream(told, &call.stream)
}

/// What a checkOut weighs.
pub fn weight_of_check_out(call: &CheckOut) -> u64
    ensures { result ≡ weight_of_check_out call.now }
{
    with_place(64, &call.place)
}

/// What a cancelCheckOut weighs.
pub fn weight_of_cancel(call: &CancelCheckOut) -> u64
    ensures { result ≡ weight_of_cancel call.now }
{
    with_place(64, &call.place)
}

/// What a checkIn weighs, its stream's bytes among it.
pub fn weight_of_check_in(call: &CheckIn) -> u64
    ensures { result ≡ weight_of_check_in call.now }
{
    let placed = with_place(64, &call.place);
    let told = with_maybe(placed, &call.comment);
    let given = with_givens(told, &call.properties);
    with_stream(given, &call.stream)
}

/// What a delete weighs.
pub fn weight_of_delete(call: &Delete) -> u64
    ensures { result ≡ weight_of_delete call.now }
{
    with_place(64, &call.place)
}

/// What an updateProperties weighs.
pub fn weight_of_update(call: &UpdateProperties) -> u64
    ensures { result ≡ weight_of_update call.now }
{
    let placed = with_place(64, &call.place);
    let given = with_givens(placed, &call.properties);
    let less = with_texts(given, &call.remove_secondary);
    let typed = with_texts(less, &call.add_secondary);
    with_maybe(typed, &call.token)
}

/// What a moveObject weighs.
pub fn weight_of_move(call: &MoveObject) -> u64
    ensures { result ≡ weight_of_move call.now }
{
    let placed = with_place(64, &call.place);
    with_text(with_text(placed, &call.source), &call.target)
}

/// What a setContentStream weighs, its stream's bytes among it.
pub fn weight_of_set_content(call: &SetContent) -> u64
    ensures { result ≡ weight_of_set_content call.now }
{
    let told = with_maybe(with_place(64, &call.place), &call.token);
    with_given_stream(told, &call.stream)
}

/// What an appendContentStream weighs, its stream's bytes among it.
pub fn weight_of_append(call: &AppendContent) -> u64
    ensures { result ≡ weight_of_append call.now }
{
    let told = with_maybe(with_place(64, &call.place), &call.token);
    with_given_stream(told, &call.stream)
}

/// What a deleteContentStream weighs.
pub fn weight_of_delete_content(call: &DeleteContent) -> u64
    ensures { result ≡ weight_of_delete_content call.now }
{
    with_maybe(with_place(64, &call.place), &call.token)
}

/// What an addObjectToFolder weighs.
pub fn weight_of_add(call: &AddToFolder) -> u64
    ensures { result ≡ weight_of_add call.now }
{
    with_text(with_place(64, &call.place), &call.folder)
}

/// What a removeObjectFromFolder weighs.
pub fn weight_of_remove(call: &RemoveFromFolder) -> u64
    ensures { result ≡ weight_of_remove call.now }
{
    with_maybe(with_place(64, &call.place), &call.folder)
}
