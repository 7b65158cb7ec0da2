//! The arguments of bulkUpdateProperties (CMIS 1.1, section 2.2.4.14).
use cm_base::items::Items;
use cm_base::text::{Text, Texts};
use cm_types::given::Givens;

/// An object that is to be changed, by its id, and the change token that the caller has of it.
#[derive(Drop)]
pub struct ObjectIdAndChangeToken {
    pub id: Text,
    pub token: Option<Text>,
}

/// Objects in the order in which they are to be changed.
pub type ObjectIdsAndChangeTokens = Items<ObjectIdAndChangeToken>;

/// Changes the properties of each of several objects.
#[derive(Drop)]
pub struct BulkUpdate {
    pub objects: ObjectIdsAndChangeTokens,
    pub properties: Givens,
    /// The ids of secondary types that are taken off and added, in this order, after what the properties give.
    pub remove_secondary: Texts,
    pub add_secondary: Texts,
}
