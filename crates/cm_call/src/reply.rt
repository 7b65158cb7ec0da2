//! Replies: one variant a shape (CMIS 1.1, section 5.2.11).
use action_parts::replies::ActionsReply;
use bulk_parts::replies::UpdatedObjects;
use call_parts::replies::{AclReply, ContentReply, ObjectReply, ObjectsReply};
use delete_tree_parts::replies::DeleteTreeReply;
use include_parts::replies::{
    IncludedChildrenReply, IncludedObjectsReply, IncludedPageReply, IncludedParentsReply,
    IncludedReply, IncludedTreeReply,
};
use log_parts::replies::ChangesReply;
use query_parts::replies::QueryReply;
use rendition_parts::replies::RenditionsReply;
use type_parts::replies::{InfoReply, TypeReply, TypeTreeReply, TypesReply};

/// What a call is answered.
pub enum Reply {
    Object(ObjectReply),
    /// The properties of an object alone.
    Properties(ObjectReply),
    /// An object with what is asked for beside its properties.
    Included(IncludedReply),
    Children(IncludedChildrenReply),
    Content(ContentReply),
    Type(TypeReply),
    Types(TypesReply),
    TypeTree(TypeTreeReply),
    Info(InfoReply),
    /// Objects with their properties alone.
    Objects(ObjectsReply),
    /// Objects with what is asked for beside their properties.
    IncludedObjects(IncludedObjectsReply),
    Parents(IncludedParentsReply),
    Acl(AclReply),
    Query(QueryReply),
    /// Of a removal.
    Nothing,
    Tree(IncludedTreeReply),
    Page(IncludedPageReply),
    Changes(ChangesReply),
    DeleteTree(DeleteTreeReply),
    Updated(UpdatedObjects),
    Renditions(RenditionsReply),
    Actions(ActionsReply),
}

// That a reply goes is proved here once, and not at each place where one goes.
impl Drop for Reply {
    fn drop(self) {
        match self {
            Reply::Object(_)
            | Reply::Properties(_)
            | Reply::Included(_)
            | Reply::Children(_)
            | Reply::Content(_)
            | Reply::Type(_)
            | Reply::Types(_)
            | Reply::TypeTree(_)
            | Reply::Info(_)
            | Reply::Objects(_)
            | Reply::IncludedObjects(_)
            | Reply::Parents(_)
            | Reply::Acl(_)
            | Reply::Query(_)
            | Reply::Nothing
            | Reply::Tree(_)
            | Reply::Page(_)
            | Reply::Changes(_)
            | Reply::DeleteTree(_)
            | Reply::Updated(_)
            | Reply::Renditions(_)
            | Reply::Actions(_) => {}
        }
    }
}
