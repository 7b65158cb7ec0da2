//! What replies hold of objects that are shown with more than their properties, one record a shape (CMIS 1.1, section 5.2.11).
use action_parts::replies::AllowableActions;
use call_parts::replies::{AclReply, ShownObject, ShownObjects};
use cm_base::items::Items;
use cm_base::text::{Text, Texts};
use rendition_parts::replies::ShownRenditions;

/// What a reply shows of an object beside its properties: each as far as it is asked for.
#[derive(Drop)]
pub struct ShownBeside {
    pub actions: Option<AllowableActions>,
    /// Each with its properties alone.
    pub relationships: Option<ShownObjects>,
    pub renditions: Option<ShownRenditions>,
    pub policy_ids: Option<Texts>,
    pub acl: Option<AclReply>,
}

/// An object as a reply shows it: its properties, and what is asked for beside them.
#[derive(Drop)]
pub struct IncludedObject {
    pub object: ShownObject,
    pub beside: ShownBeside,
}

/// Objects in the order of the reply.
pub type IncludedObjects = Items<IncludedObject>;

/// One object.
#[derive(Drop)]
pub struct IncludedReply {
    pub object: IncludedObject,
}

/// An object, and its name in a folder where that is asked for: a child by its own name, a parent by the name of its child.
#[derive(Drop)]
pub struct IncludedMember {
    pub object: IncludedObject,
    pub segment: Option<Text>,
}

/// Objects with their names in the order of the reply.
pub type IncludedMembers = Items<IncludedMember>;

/// A page of the children of a folder: whether more come after them, and how many there are in all.
#[derive(Drop)]
pub struct IncludedChildrenReply {
    pub children: IncludedMembers,
    pub has_more_items: bool,
    pub num_items: u64,
}

/// The folders of an object.
#[derive(Drop)]
pub struct IncludedParentsReply {
    pub parents: IncludedMembers,
}

/// A list that is not paged.
#[derive(Drop)]
pub struct IncludedObjectsReply {
    pub objects: IncludedObjects,
}

/// A page of objects: whether more come after them, and how many there are in all.
#[derive(Drop)]
pub struct IncludedPageReply {
    pub objects: IncludedObjects,
    pub has_more_items: bool,
    pub num_items: u64,
}

/// An object of a tree, and how many objects of the tree stand above it.
#[derive(Drop)]
pub struct IncludedRow {
    pub level: u64,
    pub member: IncludedMember,
}

/// The objects of a tree: each stands before the objects below it, and these stand before the next one of its level.
pub type IncludedRows = Items<IncludedRow>;

/// A tree of objects.
#[derive(Drop)]
pub struct IncludedTreeReply {
    pub rows: IncludedRows,
}
