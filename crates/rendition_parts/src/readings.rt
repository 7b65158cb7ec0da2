//! The arguments of the reading of renditions.
use crate::filter::RenditionFilter;
use call_parts::place::Place;

/// The renditions of an object, a page of them (section 2.2.4.12).
#[derive(Drop)]
pub struct ReadRenditions {
    pub place: Place,
    pub filter: RenditionFilter,
    /// How many at most; a greater number than 1000 counts as 1000.
    pub max_items: u64,
    /// How many are passed over.
    pub skip_count: u64,
}
