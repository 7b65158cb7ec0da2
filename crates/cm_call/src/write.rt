//! Writes (CMIS 1.1, section 2.2).
use access_parts::writes::ApplyAcl;
use bulk_parts::writes::BulkUpdate;
use call_parts::changes::{
    AddToFolder, AppendContent, DeleteContent, MoveObject, RemoveFromFolder, SetContent,
    UpdateProperties,
};
use call_parts::versions::{CancelCheckOut, CheckIn, CheckOut, CreateDocument, Delete};
use call_parts::writes::CreateFolder;
use create_parts::writes::{CreateItem, CreatePolicy, CreateRelationship};
use delete_tree_parts::writes::DeleteTree;
use policy_parts::writes::{ApplyPolicy, RemovePolicy};
use rendition_parts::writes::AddRendition;
use source_parts::writes::CreateDocumentFromSource;
use type_change_parts::writes::{CreateType, DeleteType, UpdateType};

/// A call that changes the repository.
#[derive(Drop)]
pub enum Write {
    CreateFolder(CreateFolder),
    CreateDocument(CreateDocument),
    CheckOut(CheckOut),
    CheckIn(CheckIn),
    SetContent(SetContent),
    AppendContent(AppendContent),
    DeleteContent(DeleteContent),
    Move(MoveObject),
    AddToFolder(AddToFolder),
    RemoveFromFolder(RemoveFromFolder),
    Delete(Delete),
    CancelCheckOut(CancelCheckOut),
    Update(UpdateProperties),
    ApplyAcl(ApplyAcl),
    CreateType(CreateType),
    UpdateType(UpdateType),
    DeleteType(DeleteType),
    CreateItem(CreateItem),
    CreatePolicy(CreatePolicy),
    CreateRelationship(CreateRelationship),
    CreateDocumentFromSource(CreateDocumentFromSource),
    DeleteTree(DeleteTree),
    ApplyPolicy(ApplyPolicy),
    RemovePolicy(RemovePolicy),
    BulkUpdate(BulkUpdate),
    AddRendition(AddRendition),
}
