//! The arguments of readings, one record a call (CMIS 1.1, section 2.2).
use crate::names::Names;
use crate::place::Place;
use cm_base::text::Text;

/// The word of the argument that names a stream of a document (section 5.4): its content, or one of its renditions.
pub const STREAM_ID: &str = "streamId";

/// Which properties a reply shows: all, or those of these query names (section 2.2.1.2.1). cmis:objectId is always shown.
#[derive(Drop)]
pub enum PropertyFilter {
    All,
    QueryNames(Names),
}

/// The object (section 2.2.4.8).
#[derive(Drop)]
pub struct ReadObject {
    pub place: Place,
    pub filter: PropertyFilter,
    pub succinct: bool,
}

/// The object's properties alone (section 2.2.4.9).
#[derive(Drop)]
pub struct ReadProperties {
    pub place: Place,
    pub filter: PropertyFilter,
    pub succinct: bool,
}

/// The children of a folder, a page of them (section 2.2.3.1).
#[derive(Drop)]
pub struct ReadChildren {
    pub place: Place,
    pub filter: PropertyFilter,
    /// How many at most; a greater number than 1000 counts as 1000.
    pub max_items: u64,
    /// How many are passed over.
    pub skip_count: u64,
    pub succinct: bool,
}

/// An object without a selector (section 5.4.2.3): the children of a folder, the content of a document, or else the object itself.
#[derive(Drop)]
pub struct ReadDefault {
    /// The arguments of children; the place, the filter and the form are those of each.
    pub children: ReadChildren,
    pub stream: Option<Text>,
}

/// The content of a document, or its rendition with this stream id (section 2.2.4.11).
#[derive(Drop)]
pub struct ReadContent {
    pub place: Place,
    pub stream: Option<Text>,
}

/// The versions of a document (section 2.2.7.6).
#[derive(Drop)]
pub struct ReadVersions {
    pub place: Place,
    pub filter: PropertyFilter,
    pub succinct: bool,
}

/// The parent of a folder (section 2.2.3.4), with its properties alone.
#[derive(Drop)]
pub struct ReadParent {
    pub place: Place,
    pub succinct: bool,
}

/// The folders of an object (section 2.2.3.5).
#[derive(Drop)]
pub struct ReadParents {
    pub place: Place,
    pub filter: PropertyFilter,
    /// Whether each folder is shown with the name that the object has in it.
    pub segments: bool,
    pub succinct: bool,
}

/// The policies that are applied to an object (section 2.2.9.3), each with its properties alone.
#[derive(Drop)]
pub struct ReadPolicies {
    pub place: Place,
    pub succinct: bool,
}

/// The access control list of an object (section 2.2.10.2).
#[derive(Drop)]
pub struct ReadAcl {
    pub place: Place,
}
