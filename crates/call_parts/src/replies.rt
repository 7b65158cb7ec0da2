//! What replies hold, one record a shape (CMIS 1.1, section 5.2.11).
use cm_base::items::Items;
use cm_base::media::MediaType;
use cm_base::pieces::Pieces;
use cm_base::text::{Text, Texts};
use cm_base::value::{Value, Values};
use cm_types::property::{Cardinality, PropertyKind};

/// A property with what its definition says of it.
#[derive(Drop)]
pub struct ShownProperty {
    pub id: Text,
    pub local_name: Text,
    pub display_name: Text,
    pub query_name: Text,
    pub kind: PropertyKind,
    pub cardinality: Cardinality,
    pub value: Value,
}

/// Properties in full.
pub type ShownProperties = Items<ShownProperty>;

/// The properties of an object, in full or in succinct form.
#[derive(Drop)]
pub enum Properties {
    Full(ShownProperties),
    Succinct(Values),
}

/// An object as a reply shows it.
#[derive(Drop)]
pub struct ShownObject {
    pub properties: Properties,
}

/// Objects in the order of the reply.
pub type ShownObjects = Items<ShownObject>;

/// An object, and whether the call made it.
#[derive(Drop)]
pub struct ObjectReply {
    pub object: ShownObject,
    pub created: bool,
}

/// A page of the children of a folder: the objects, whether more come after them, and how many there are in all.
#[derive(Drop)]
pub struct ChildrenReply {
    pub objects: ShownObjects,
    pub has_more_items: bool,
    pub num_items: u64,
}

/// A list that is not paged.
#[derive(Drop)]
pub struct ObjectsReply {
    pub objects: ShownObjects,
}

/// A folder of an object, and the name that the object has in it where that is asked for.
#[derive(Drop)]
pub struct ShownParent {
    pub object: ShownObject,
    pub segment: Option<Text>,
}

/// Folders in the order of the reply.
pub type ShownParents = Items<ShownParent>;

/// The folders of an object.
#[derive(Drop)]
pub struct ParentsReply {
    pub parents: ShownParents,
}

/// A principal with all the permissions that a list gives him.
#[derive(Drop)]
pub struct ShownAce {
    pub principal: Text,
    pub permissions: Texts,
}

/// Principals in the order of the reply.
pub type ShownAces = Items<ShownAce>;

/// An access control list (section 2.1.12.2).
#[derive(Drop)]
pub struct AclReply {
    pub aces: ShownAces,
}

/// Bytes with their media type.
#[derive(Drop)]
pub struct ContentReply {
    pub kind: MediaType,
    pub body: Pieces,
}
