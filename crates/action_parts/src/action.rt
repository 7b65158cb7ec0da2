//! The actions on an object, and their names (CMIS 1.1, sections 2.1.12.3 and 2.2.4.7).
ghost use Rattle.std.specs.Prelude.{◌≡◌};
ghost use Rattle.action_parts.specs.Actions.{all_actions, name_of_action};

/// An action on an object, in the order of the names.
#[derive(Clone, Copy, Debug, PartialEq, Eq)]
pub enum Action {
    AddObjectToFolder,
    ApplyAcl,
    ApplyPolicy,
    CancelCheckOut,
    CheckIn,
    CheckOut,
    CreateDocument,
    CreateFolder,
    CreateItem,
    CreateRelationship,
    DeleteContentStream,
    DeleteObject,
    DeleteTree,
    GetAcl,
    GetAllVersions,
    GetAppliedPolicies,
    GetChildren,
    GetContentStream,
    GetDescendants,
    GetFolderParent,
    GetFolderTree,
    GetObjectParents,
    GetObjectRelationships,
    GetProperties,
    GetRenditions,
    MoveObject,
    RemoveObjectFromFolder,
    RemovePolicy,
    SetContentStream,
    UpdateProperties,
}

const ACTIONS: [Action; 30] = [
    Action::AddObjectToFolder,
    Action::ApplyAcl,
    Action::ApplyPolicy,
    Action::CancelCheckOut,
    Action::CheckIn,
    Action::CheckOut,
    Action::CreateDocument,
    Action::CreateFolder,
    Action::CreateItem,
    Action::CreateRelationship,
    Action::DeleteContentStream,
    Action::DeleteObject,
    Action::DeleteTree,
    Action::GetAcl,
    Action::GetAllVersions,
    Action::GetAppliedPolicies,
    Action::GetChildren,
    Action::GetContentStream,
    Action::GetDescendants,
    Action::GetFolderParent,
    Action::GetFolderTree,
    Action::GetObjectParents,
    Action::GetObjectRelationships,
    Action::GetProperties,
    Action::GetRenditions,
    Action::MoveObject,
    Action::RemoveObjectFromFolder,
    Action::RemovePolicy,
    Action::SetContentStream,
    Action::UpdateProperties,
];

/// The thirty actions, in byte order of their names.
pub fn all_actions() -> &'static [Action]
    ensures { result.now ≡ all_actions }
{
    &ACTIONS
}

impl Action {
    /// The name that replies have for it.
    pub fn name(self) -> &'static str
        ensures { result.now ≡ name_of_action self }
    {
        match self {
            Action::AddObjectToFolder => "canAddObjectToFolder",
            Action::ApplyAcl => "canApplyACL",
            Action::ApplyPolicy => "canApplyPolicy",
            Action::CancelCheckOut => "canCancelCheckOut",
            Action::CheckIn => "canCheckIn",
            Action::CheckOut => "canCheckOut",
            Action::CreateDocument => "canCreateDocument",
            Action::CreateFolder => "canCreateFolder",
            Action::CreateItem => "canCreateItem",
            Action::CreateRelationship => "canCreateRelationship",
            Action::DeleteContentStream => "canDeleteContentStream",
            Action::DeleteObject => "canDeleteObject",
            Action::DeleteTree => "canDeleteTree",
            Action::GetAcl => "canGetACL",
            Action::GetAllVersions => "canGetAllVersions",
            Action::GetAppliedPolicies => "canGetAppliedPolicies",
            Action::GetChildren => "canGetChildren",
            Action::GetContentStream => "canGetContentStream",
            Action::GetDescendants => "canGetDescendants",
            Action::GetFolderParent => "canGetFolderParent",
            Action::GetFolderTree => "canGetFolderTree",
            Action::GetObjectParents => "canGetObjectParents",
            Action::GetObjectRelationships => "canGetObjectRelationships",
            Action::GetProperties => "canGetProperties",
            Action::GetRenditions => "canGetRenditions",
            Action::MoveObject => "canMoveObject",
            Action::RemoveObjectFromFolder => "canRemoveObjectFromFolder",
            Action::RemovePolicy => "canRemovePolicy",
            Action::SetContentStream => "canSetContentStream",
            Action::UpdateProperties => "canUpdateProperties",
        }
    }
}
