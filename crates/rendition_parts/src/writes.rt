//! The arguments of the write on renditions.
use call_parts::place::Place;
use call_parts::stream::GivenStream;
use cm_base::text::Text;

/// Adds a rendition to the addressed document. The standard has no such call: it is an action of this repository's own.
#[derive(Drop)]
pub struct AddRendition {
    pub place: Place,
    /// The kind of the rendition, as `cmis:thumbnail` (section 2.1.4.2.1).
    pub kind: Text,
    pub title: Option<Text>,
    /// Its media type and its bytes. A file name is not kept.
    pub stream: GivenStream,
    pub succinct: bool,
}
