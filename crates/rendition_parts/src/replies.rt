//! What replies hold of renditions (CMIS 1.1, section 2.1.4.2).
use cm_base::items::Items;
use cm_base::media::MediaType;
use cm_base::number::Oid;
use cm_base::text::Text;

/// A rendition as a reply shows it, without its bytes (section 2.1.4.2.1).
#[derive(Drop)]
pub struct ShownRendition {
    /// The number whose decimal digits are its stream id.
    pub stream_id: Oid,
    pub mime_type: MediaType,
    /// How many bytes it has.
    pub length: u64,
    pub kind: Text,
    pub title: Option<Text>,
}

/// Renditions in the order of the reply.
pub type ShownRenditions = Items<ShownRendition>;

/// The renditions of an object.
#[derive(Drop)]
pub struct RenditionsReply {
    pub renditions: ShownRenditions,
}
