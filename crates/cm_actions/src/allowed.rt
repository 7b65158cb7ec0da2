//! Which actions the caller may do.
ghost use Rattle.std.specs.Prelude.{◌≡◌, map, IfOk};
ghost use Rattle.cm_actions.specs.Allowed.{actions_of, allows, flag_of, is_filed_kind, is_free};

use crate::grounds::{Grounds, grounds_of};
use action_parts::action::{Action, all_actions};
use action_parts::replies::{ActionFlag, AllowableActions};
use cm_base::items::Items;
use cm_base::object::Object;
use cm_base::text::Text;
use cm_state::state::State;
use std::alloc::{AllocError, Global};

fn is_filed_kind(g: &Grounds) -> bool
    ensures { result ≡ is_filed_kind g.now }
{
    g.rules.fileable && !g.stage.working
}

fn is_free(g: &Grounds) -> bool
    ensures { result ≡ is_free g.now }
{
    g.stage.working || !g.stage.checked_out
}

/// Whether the action is allowed on these grounds.
pub fn allows(g: &Grounds, action: Action) -> bool
    ensures { result ≡ allows g.now action }
{
    match action {
        Action::AddObjectToFolder => g.rights.write && is_filed_kind(g) && !g.kind.folder,
        Action::ApplyAcl => g.rights.list && g.rules.access,
        Action::ApplyPolicy => g.rights.write && g.rules.policies,
        Action::CancelCheckOut => g.stage.working && g.rights.write,
        Action::CheckIn => g.stage.working && g.rights.write,
        Action::CheckOut => {
            g.kind.document
                && g.rights.write
                && g.rules.versionable
                && g.stage.latest
                && !g.stage.checked_out
        }
        Action::CreateDocument => g.kind.folder && g.rights.write,
        Action::CreateFolder => g.kind.folder && g.rights.write,
        Action::CreateItem => g.kind.folder && g.rights.write,
        Action::CreateRelationship => !g.kind.relationship && g.rights.named,
        Action::DeleteContentStream => {
            g.kind.document
                && g.rights.write
                && g.stage.changeable
                && !g.stage.held
                && g.stage.filled
                && !g.rules.needs_content
        }
        Action::DeleteObject => { g.rights.all && !g.kind.root && !g.stage.held && is_free(g) }
        Action::DeleteTree => g.kind.folder && g.rights.all && !g.kind.root,
        Action::GetAcl => true,
        Action::GetAllVersions => g.kind.document,
        Action::GetAppliedPolicies => true,
        Action::GetChildren => g.kind.folder,
        Action::GetContentStream => g.kind.document && g.stage.filled,
        Action::GetDescendants => g.kind.folder,
        Action::GetFolderParent => g.kind.folder && !g.kind.root,
        Action::GetFolderTree => g.kind.folder,
        Action::GetObjectParents => g.rules.fileable,
        Action::GetObjectRelationships => true,
        Action::GetProperties => true,
        Action::GetRenditions => true,
        Action::MoveObject => g.rights.write && is_filed_kind(g) && !g.kind.root,
        Action::RemoveObjectFromFolder => g.rights.write && is_filed_kind(g) && !g.kind.folder,
        Action::RemovePolicy => g.rights.write && g.rules.policies,
        Action::SetContentStream => {
            g.kind.document
                && g.rights.write
                && g.stage.changeable
                && !g.stage.held
                && !g.rules.bars_content
        }
        Action::UpdateProperties => g.rights.write && g.stage.changeable,
    }
}

fn flags(alloc: Global, g: &Grounds, actions: &[Action]) -> Result<AllowableActions, AllocError>
    ensures { IfOk result (λ all. all ≡ map (flag_of g.now) actions.now) }
{
    let mut all = Vec::with_capacity(alloc, actions.len())?;
    for action in actions {
        all.push(ActionFlag {
            action: *action,
            is_allowed: allows(g, *action),
        })?;
    }
    Ok(Items::from_vec(all))
}

/// Each action on the object, and whether the caller, who reads it, may do it (CMIS 1.1, section 2.2.4.7). Its look-ups are made once.
pub fn actions(
    alloc: Global,
    state: &State,
    user: &Text,
    x: &Object,
) -> Result<AllowableActions, AllocError>
    ensures { IfOk result (λ all. all ≡ actions_of state.now user.now x.now) }
{
    let grounds = grounds_of(state, user, x);
    let all = flags(alloc, &grounds, all_actions())?;
    Ok(all)
}
