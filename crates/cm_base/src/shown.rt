//! What a reply shows.
use crate::body::Body;
use crate::media::MediaType;

/// A reply before its head is written: the status, the media type (an empty one: no Content-Type), the body,
/// and the step number that it was made at (none: no CMIS-Step).
#[derive(Drop)]
pub struct Shown {
    pub status: u16,
    pub kind: MediaType,
    pub body: Body,
    pub number: Option<u64>,
}
