//! Writes that change an object, its content and its filing (CMIS 1.1, sections 2.2.4 and 2.2.5).
use crate::place::Place;
use crate::stream::GivenStream;
use cm_base::text::{Text, Texts};
use cm_types::given::Givens;

/// Changes the properties of the addressed object (section 2.2.4.13).
#[derive(Drop)]
pub struct UpdateProperties {
    pub place: Place,
    pub properties: Givens,
    /// The ids of secondary types that are taken off and added, in this order, after what the properties give.
    pub remove_secondary: Texts,
    pub add_secondary: Texts,
    pub token: Option<Text>,
    pub succinct: bool,
}

/// Moves the addressed object from one folder to another (section 2.2.4.15).
#[derive(Drop)]
pub struct MoveObject {
    pub place: Place,
    pub source: Text,
    pub target: Text,
    pub succinct: bool,
}

/// Sets the content of the addressed document (section 2.2.4.18).
#[derive(Drop)]
pub struct SetContent {
    pub place: Place,
    /// Whether a content that is there is replaced.
    pub overwrite: bool,
    pub token: Option<Text>,
    pub stream: GivenStream,
    pub succinct: bool,
}

/// Adds bytes at the end of the content of the addressed document (section 2.2.4.19).
#[derive(Drop)]
pub struct AppendContent {
    pub place: Place,
    pub token: Option<Text>,
    pub stream: GivenStream,
    pub succinct: bool,
}

/// Drops the content of the addressed document (section 2.2.4.20).
#[derive(Drop)]
pub struct DeleteContent {
    pub place: Place,
    pub token: Option<Text>,
    pub succinct: bool,
}

/// Files the addressed object in one folder more (section 2.2.5.1).
#[derive(Drop)]
pub struct AddToFolder {
    pub place: Place,
    pub folder: Text,
    pub succinct: bool,
}

/// Takes the addressed object out of a folder, or out of all (section 2.2.5.2).
#[derive(Drop)]
pub struct RemoveFromFolder {
    pub place: Place,
    pub folder: Option<Text>,
    pub succinct: bool,
}
