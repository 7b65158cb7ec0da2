//! What is shown of an object: its properties, and of the rest what is asked for.
ghost use Rattle.std.specs.Prelude.{◌≡◌, IfOk, Some, map};
ghost use Rattle.cm_map.specs.Parts.{pointee};
ghost use Rattle.cm_see.specs.Shown.{shown_object};
ghost use Rattle.cm_actions.specs.Allowed.{actions_of};
ghost use Rattle.cm_include.specs.Included.{asks_for_some, if_asked, included_in, policy_ids, relationships_asked, renditions_asked, shown_beside, shown_relationships};
ghost use Rattle.rd_access.specs.ReadAcl.{acl_reply};

use crate::policies::policy_ids;
use action_parts::replies::AllowableActions;
use call_parts::readings::PropertyFilter;
use call_parts::replies::{AclReply, ShownObjects};
use cm_actions::allowed::actions;
use cm_base::items::Items;
use cm_base::object::Object;
use cm_base::text::{Text, Texts};
use cm_relationships::found::relationships_of;
use cm_renditions::shown::shown_renditions;
use cm_see::shown::shown_object;
use cm_state::state::State;
use include_parts::readings::{IncludeRelationships, Includes};
use include_parts::replies::{IncludedObject, IncludedObjects, ShownBeside};
use rd_access::acl::acl_reply;
use relationship_parts::readings::Direction;
use rendition_parts::filter::RenditionFilter;
use rendition_parts::replies::ShownRenditions;
use std::alloc::{AllocError, Global};

/// What the caller sees of the repository, and what of each object is shown to him.
#[derive(Clone, Copy)]
pub struct View<'a> {
    pub state: &'a State,
    pub user: &'a Text,
    pub filter: &'a PropertyFilter,
    /// Whether properties are shown in succinct form.
    pub succinct: bool,
    pub includes: &'a Includes,
}

fn actions_asked(
    alloc: Global,
    state: &State,
    user: &Text,
    asked: bool,
    x: &Object,
) -> Result<Option<AllowableActions>, AllocError>
    ensures { IfOk result (λ a. a ≡ if_asked asked (actions_of state.now user.now x.now)) }
{
    if !asked {
        return Ok(None);
    }
    let actions = actions(alloc, state, user, x)?;
    Ok(Some(actions))
}

fn policy_ids_asked(
    alloc: Global,
    state: &State,
    user: &Text,
    asked: bool,
    x: &Object,
) -> Result<Option<Texts>, AllocError>
    ensures { IfOk result (λ ids. ids ≡ if_asked asked (policy_ids state.now user.now x.now)) }
{
    if !asked {
        return Ok(None);
    }
    let ids = policy_ids(alloc, state, user, x)?;
    Ok(Some(ids))
}

fn acl_asked(
    alloc: Global,
    state: &State,
    asked: bool,
    x: &Object,
) -> Result<Option<AclReply>, AllocError>
    ensures { IfOk result (λ a. a ≡ if_asked asked (acl_reply state.now x.now)) }
{
    if !asked {
        return Ok(None);
    }
    let reply = acl_reply(alloc, state, x)?;
    Ok(Some(reply))
}

fn shown_all(
    alloc: Global,
    state: &State,
    user: &Text,
    filter: &PropertyFilter,
    succinct: bool,
    objects: &[&Object],
) -> Result<ShownObjects, AllocError>
    ensures { IfOk result (λ all. all
        ≡ map (shown_object state.now user.now filter.now succinct) (map pointee objects.now)) }
{
    let mut all = Items::new(alloc);
    for x in objects {
        all.push(shown_object(alloc, state, user, filter, succinct, x)?)?;
    }
    Ok(all)
}

// Relationships of the object, each with all its properties and nothing else.
fn shown_relationships(
    alloc: Global,
    state: &State,
    user: &Text,
    succinct: bool,
    direction: Direction,
    x: &Object,
) -> Result<Option<ShownObjects>, AllocError>
    ensures { IfOk result (λ all. all ≡ Some (shown_relationships state.now user.now succinct direction x.now)) }
{
    let filter = PropertyFilter::All;
    let found = relationships_of(alloc, state, user, direction, x.id)?;
    let all = shown_all(alloc, state, user, &filter, succinct, &found)?;
    Ok(Some(all))
}

fn relationships_asked(
    alloc: Global,
    state: &State,
    user: &Text,
    succinct: bool,
    asked: IncludeRelationships,
    x: &Object,
) -> Result<Option<ShownObjects>, AllocError>
    ensures { IfOk result (λ all. all ≡ relationships_asked state.now user.now succinct asked x.now) }
{
    match asked {
        IncludeRelationships::Nothing => Ok(None),
        IncludeRelationships::Source => {
            shown_relationships(alloc, state, user, succinct, Direction::Source, x)
        }
        IncludeRelationships::Target => {
            shown_relationships(alloc, state, user, succinct, Direction::Target, x)
        }
        IncludeRelationships::Both => {
            shown_relationships(alloc, state, user, succinct, Direction::Either, x)
        }
    }
}

// Whether the filter asks for renditions at all.
fn asks_for_some(filter: &RenditionFilter) -> bool
    ensures { result ≡ asks_for_some filter.now }
{
    match filter {
        RenditionFilter::None => false,
        RenditionFilter::All => true,
        RenditionFilter::Listed(_) => true,
    }
}

fn renditions_asked(
    alloc: Global,
    state: &State,
    filter: &RenditionFilter,
    x: &Object,
) -> Result<Option<ShownRenditions>, AllocError>
    ensures { IfOk result (λ d. d ≡ renditions_asked state.now filter.now x.now) }
{
    if !asks_for_some(filter) {
        return Ok(None);
    }
    let renditions = shown_renditions(alloc, state, filter, x)?;
    Ok(Some(renditions))
}

/// What is asked for beside the properties of the object. The caller is to read it.
pub fn shown_beside(
    alloc: Global,
    state: &State,
    user: &Text,
    succinct: bool,
    includes: &Includes,
    x: &Object,
) -> Result<ShownBeside, AllocError>
    ensures { IfOk result (λ b. b ≡ shown_beside state.now user.now succinct includes.now x.now) }
{
    let actions = actions_asked(alloc, state, user, includes.actions, x)?;
    let relationships = relationships_asked(
        alloc,
        state,
        user,
        succinct,
        includes.relationships,
        x,
    )?;
    let renditions = renditions_asked(alloc, state, &includes.renditions, x)?;
    let policy_ids = policy_ids_asked(alloc, state, user, includes.policy_ids, x)?;
    let acl = acl_asked(alloc, state, includes.acl, x)?;
    Ok(ShownBeside {
        actions,
        relationships,
        renditions,
        policy_ids,
        acl,
    })
}

/// The object as the caller sees it, with what is asked for beside its properties. The caller is to read it.
pub fn included_object(
    alloc: Global,
    view: View<'_>,
    x: &Object,
) -> Result<IncludedObject, AllocError>
    ensures { IfOk result (λ o. o ≡ included_in view.entry x.now) }
{
    let object = shown_object(alloc, view.state, view.user, view.filter, view.succinct, x)?;
    let beside = shown_beside(
        alloc,
        view.state,
        view.user,
        view.succinct,
        view.includes,
        x,
    )?;
    Ok(IncludedObject { object, beside })
}

/// The objects as the caller sees them, in their order.
pub fn included_objects(
    alloc: Global,
    view: View<'_>,
    objects: &[&Object],
) -> Result<IncludedObjects, AllocError>
    ensures { IfOk result (λ all. all ≡ map (included_in view.entry) (map pointee objects.now)) }
{
    let mut all = Items::new(alloc);
    for x in objects {
        all.push(included_object(alloc, view, x)?)?;
    }
    Ok(all)
}
