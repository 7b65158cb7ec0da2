//! The words of type definitions, and the forms of ids and query names.
ghost use Rattle.std.specs.Prelude.{◌≡◌, ℕ, List, find, Option, slice_index};
ghost use Rattle.std.specs.Option.{option_copied};
ghost use Rattle.std.specs.List.{list_all};
ghost use Rattle.ql_lex.specs.Lexes.{begins_name, is_name_byte};
ghost use Rattle.type_keys.specs.Words.{content_word, kind_word, cardinality_word, updatability_word, worded, content_of, kind_of, cardinality_of, updatability_of, is_id_byte, is_id, is_query_name};

use cm_types::definition::ContentAllowed;
use cm_types::property::{Cardinality, PropertyKind, Updatability};
use ql_lex::word::keyword_of;

/// What has a word in type definitions.
pub trait Worded: Copy {
    ghost word: { Self → List ℕ };

    /// The word.
    fn word(self) -> &'static str
        ensures { result.now ≡ word self };
}

impl Worded for ContentAllowed {
    ghost word = { content_word };

    fn word(self) -> &'static str {
        match self {
            ContentAllowed::NotAllowed => "notallowed",
            ContentAllowed::Allowed => "allowed",
            ContentAllowed::Required => "required",
        }
    }
}

impl Worded for PropertyKind {
    ghost word = { kind_word };

    fn word(self) -> &'static str {
        match self {
            PropertyKind::Boolean => "boolean",
            PropertyKind::Integer => "integer",
            PropertyKind::Datetime => "datetime",
            PropertyKind::String => "string",
            PropertyKind::Uri => "uri",
            PropertyKind::Id => "id",
            PropertyKind::Html => "html",
        }
    }
}

impl Worded for Cardinality {
    ghost word = { cardinality_word };

    fn word(self) -> &'static str {
        match self {
            Cardinality::Single => "single",
            Cardinality::Multi => "multi",
        }
    }
}

impl Worded for Updatability {
    ghost word = { updatability_word };

    fn word(self) -> &'static str {
        match self {
            Updatability::ReadOnly => "readonly",
            Updatability::ReadWrite => "readwrite",
            Updatability::OnCreate => "oncreate",
            Updatability::WhenCheckedOut => "whencheckedout",
        }
    }
}

fn found_in<'a, T: Worded>(all: &'a [T], text: &str) -> Option<&'a T>
    ensures { option_copied result ≡ worded T.word all.now text.now }
{
    all.iter().find(|c| c.word().as_bytes() == text.as_bytes())
}

fn first_worded<T: Worded>(all: &[T], text: &str) -> Option<T>
    ensures { result ≡ worded T.word all.now text.now }
{
    match found_in(all, text) {
        Some(c) => Some(*c),
        None => None,
    }
}

const CONTENTS: [ContentAllowed; 3] = [
    ContentAllowed::NotAllowed,
    ContentAllowed::Allowed,
    ContentAllowed::Required,
];

const KINDS: [PropertyKind; 7] = [
    PropertyKind::Boolean,
    PropertyKind::Integer,
    PropertyKind::Datetime,
    PropertyKind::String,
    PropertyKind::Uri,
    PropertyKind::Id,
    PropertyKind::Html,
];

const CARDINALITIES: [Cardinality; 2] = [Cardinality::Single, Cardinality::Multi];

const UPDATABILITIES: [Updatability; 4] = [
    Updatability::ReadOnly,
    Updatability::ReadWrite,
    Updatability::OnCreate,
    Updatability::WhenCheckedOut,
];

/// Whether content is allowed, by its word.
pub fn content_of(text: &str) -> Option<ContentAllowed>
    ensures { result ≡ content_of text.now }
{
    first_worded(&CONTENTS, text)
}

/// The kind of a property, by its word. Decimal properties are left out.
pub fn kind_of(text: &str) -> Option<PropertyKind>
    ensures { result ≡ kind_of text.now }
{
    first_worded(&KINDS, text)
}

/// The cardinality, by its word.
pub fn cardinality_of(text: &str) -> Option<Cardinality>
    ensures { result ≡ cardinality_of text.now }
{
    first_worded(&CARDINALITIES, text)
}

/// The updatability, by its word.
pub fn updatability_of(text: &str) -> Option<Updatability>
    ensures { result ≡ updatability_of text.now }
{
    first_worded(&UPDATABILITIES, text)
}

fn begins_name(byte: u8) -> bool
    ensures { result ≡ begins_name byte }
{
    (byte > 64 && byte < 91) || (byte > 96 && byte < 123) || byte == b'_'
}

fn is_name_byte(byte: u8) -> bool
    ensures { result ≡ is_name_byte byte }
{
    begins_name(byte) || (byte > 47 && byte < 58) || byte == b':'
}

fn is_id_byte(byte: u8) -> bool
    ensures { result ≡ is_id_byte byte }
{
    is_name_byte(byte) || byte == b'-' || byte == b'.'
}

fn are_id_bytes(bytes: &[u8]) -> bool
    ensures { result ≡ list_all is_id_byte bytes.now }
{
    bytes.iter().all(|b| is_id_byte(*b))
}

fn are_name_bytes(bytes: &[u8]) -> bool
    ensures { result ≡ list_all is_name_byte bytes.now }
{
    bytes.iter().all(|b| is_name_byte(*b))
}

/// Whether the text has the form of an id of a type or property.
pub fn is_id(text: &str) -> bool
    ensures { result ≡ is_id text.now }
{
    text.len() > 0 && text.len() <= 128 && are_id_bytes(text.as_bytes())
}

fn begins_with_name(bytes: &[u8]) -> bool
    ensures { result ≡ begins_name (slice_index bytes.now 0) }
{
    match bytes {
        [] => false,
        [b, ..] => begins_name(*b),
    }
}

/// Whether the text has the form of a query name.
pub fn is_query_name(text: &str) -> bool
    ensures { result ≡ is_query_name text.now }
{
    begins_with_name(text.as_bytes())
        && text.len() <= 128
        && are_name_bytes(text.as_bytes())
        && keyword_of(text.as_bytes()).is_none()
}
