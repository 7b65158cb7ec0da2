//! Writes on documents and their version series (CMIS 1.1, sections 2.2.4 and 2.2.7).
use crate::place::Place;
use crate::stream::GivenStream;
use crate::writes::AceRequests;
use cm_base::series::VersioningState;
use cm_base::text::{Text, Texts};
use cm_types::given::Givens;

/// Makes a document, in the addressed folder if there is one (section 2.2.4.1).
#[derive(Drop)]
pub struct CreateDocument {
    pub place: Option<Place>,
    pub properties: Givens,
    pub policies: Texts,
    pub remove: AceRequests,
    pub add: AceRequests,
    pub state: Option<VersioningState>,
    pub stream: Option<GivenStream>,
    pub succinct: bool,
}

/// Makes a working copy of the addressed document (section 2.2.7.1).
#[derive(Drop)]
pub struct CheckOut {
    pub place: Place,
    pub succinct: bool,
}

/// Drops the addressed working copy (section 2.2.7.2).
#[derive(Drop)]
pub struct CancelCheckOut {
    pub place: Place,
}

/// Makes the addressed working copy the latest version of its series (section 2.2.7.3).
#[derive(Drop)]
pub struct CheckIn {
    pub place: Place,
    pub major: bool,
    pub comment: Option<Text>,
    pub properties: Givens,
    pub stream: Option<GivenStream>,
    pub succinct: bool,
}

/// Deletes the addressed object (section 2.2.4.16).
#[derive(Drop)]
pub struct Delete {
    pub place: Place,
    /// Of a document: its whole series, or this version alone.
    pub all_versions: bool,
}
