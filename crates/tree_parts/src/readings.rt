//! The arguments of the readings of trees of objects and of working copies, one record a call (CMIS 1.1, section 2.2.3).
use call_parts::place::Place;
use call_parts::readings::PropertyFilter;
use type_parts::readings::Depth;

/// What stands below a folder (sections 2.2.3.2 and 2.2.3.3).
#[derive(Drop)]
pub struct ReadTree {
    pub place: Place,
    pub filter: PropertyFilter,
    /// How many levels below the folder.
    pub depth: Depth,
    /// Whether each object is shown with the name that it has in its folder.
    pub segments: bool,
    pub succinct: bool,
    /// Whether folders alone are shown.
    pub folders_only: bool,
}

/// The working copies, a page of them (section 2.2.3.6).
#[derive(Drop)]
pub struct ReadCheckedOut {
    /// The folder in which their series stand, or none for those of the whole repository.
    pub place: Option<Place>,
    pub filter: PropertyFilter,
    /// How many at most; a greater number than 1000 counts as 1000.
    pub max_items: u64,
    /// How many are passed over.
    pub skip_count: u64,
    pub succinct: bool,
}
