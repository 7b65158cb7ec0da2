//! What the reply to bulkUpdateProperties holds (CMIS 1.1, section 2.2.4.14).
use cm_base::items::Items;
use cm_base::number::Oid;

/// An object that was changed, and its change token since then.
#[derive(Clone, Copy, Debug, PartialEq, Eq)]
pub struct UpdatedObject {
    pub id: Oid,
    pub token: u64,
}

/// Objects in the order in which they were changed.
pub type UpdatedObjects = Items<UpdatedObject>;
