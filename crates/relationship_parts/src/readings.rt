//! The arguments of the reading of relationships (CMIS 1.1, section 2.2.8.1).
use call_parts::place::Place;
use call_parts::readings::PropertyFilter;
use cm_base::text::Text;

/// At which end of a relationship an object stands.
#[derive(Clone, Copy, Debug, PartialEq, Eq)]
pub enum Direction {
    /// The object is the source.
    Source,
    /// The object is the target.
    Target,
    /// The object is the source or the target, or both.
    Either,
}

/// The relationships of an object, a page of them.
#[derive(Drop)]
pub struct ReadRelationships {
    pub place: Place,
    pub direction: Direction,
    /// The type of the relationships, where they are of one.
    pub kind: Option<Text>,
    /// Whether those of the types below it are asked for too.
    pub with_subtypes: bool,
    pub filter: PropertyFilter,
    /// How many at most; a greater number than 1000 counts as 1000.
    pub max_items: u64,
    /// How many are passed over.
    pub skip_count: u64,
    pub succinct: bool,
}
