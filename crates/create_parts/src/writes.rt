//! The arguments of the writes that make an item, a policy or a relationship, one record a call (CMIS 1.1, section 2.2.4).
use call_parts::place::Place;
use call_parts::writes::AceRequests;
use cm_base::text::Texts;
use cm_types::given::Givens;

/// What a call asks of the object that it makes.
#[derive(Drop)]
pub struct ObjectRequest {
    pub properties: Givens,
    /// The ids of policies to apply to the new object.
    pub policies: Texts,
    /// Entries taken from the new object's access control list, and entries added to it, in this order.
    pub remove: AceRequests,
    pub add: AceRequests,
}

/// Makes an item, in the addressed folder if there is one (section 2.2.4.6).
#[derive(Drop)]
pub struct CreateItem {
    pub place: Option<Place>,
    pub object: ObjectRequest,
    /// Whether the reply shows the properties in succinct form.
    pub succinct: bool,
}

/// Makes a policy, which stands in no folder (section 2.2.4.5).
#[derive(Drop)]
pub struct CreatePolicy {
    pub place: Option<Place>,
    pub object: ObjectRequest,
    pub succinct: bool,
}

/// Makes a relationship between the objects that the properties cmis:sourceId and cmis:targetId name (section 2.2.4.4). What is
/// addressed is read, and means nothing else.
#[derive(Drop)]
pub struct CreateRelationship {
    pub place: Option<Place>,
    pub object: ObjectRequest,
    pub succinct: bool,
}
