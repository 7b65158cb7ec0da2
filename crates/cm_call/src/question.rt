//! Questions (CMIS 1.1, section 2.2).
use action_parts::readings::ReadActions;
use call_parts::readings::{ReadAcl, ReadContent, ReadParent, ReadPolicies};
use include_parts::readings::{
    ShowCheckedOut, ShowChildren, ShowDefault, ShowObject, ShowParents, ShowProperties,
    ShowRelationships, ShowTree, ShowVersions,
};
use log_parts::readings::ReadChanges;
use query_parts::readings::ReadQuery;
use rendition_parts::readings::ReadRenditions;
use type_parts::readings::{ReadInfo, ReadTypeChildren, ReadTypeDefinition, ReadTypeDescendants};

/// A call that changes nothing.
#[derive(Drop)]
pub enum Question {
    Object(ShowObject),
    Properties(ShowProperties),
    Children(ShowChildren),
    Content(ReadContent),
    Default(ShowDefault),
    TypeDefinition(ReadTypeDefinition),
    TypeChildren(ReadTypeChildren),
    TypeDescendants(ReadTypeDescendants),
    Info(ReadInfo),
    Versions(ShowVersions),
    Parent(ReadParent),
    Parents(ShowParents),
    Policies(ReadPolicies),
    Acl(ReadAcl),
    Query(ReadQuery),
    Tree(ShowTree),
    CheckedOut(ShowCheckedOut),
    Changes(ReadChanges),
    Renditions(ReadRenditions),
    Actions(ReadActions),
    Relationships(ShowRelationships),
}
