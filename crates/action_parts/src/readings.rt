//! The arguments of the reading of allowable actions (CMIS 1.1, section 2.2.4.7).
use call_parts::place::Place;

/// Which actions the caller may do on an object.
#[derive(Drop)]
pub struct ReadActions {
    pub place: Place,
}
