//! An object that a call makes, and its place in a folder, as a draft.
ghost use Rattle.std.specs.Prelude.{◌≡◌, ◌+◌, ◌<◌, ◌^◌, [], IfOk};
ghost use Rattle.cm_base.specs.declared.log.ChangeKind.TheVariants.{Created};
ghost use Rattle.cmis_spec.specs.Repository.{new_number};
ghost use Rattle.cmis_spec.specs.Changes.{stepped, noted, with_object, with_pair};
ghost use Rattle.wr_object.specs.CreateFolder.{object_of};

use cm_base::access::Aces;
use cm_base::copies::Copies;
use cm_base::items::Items;
use cm_base::log::ChangeKind;
use cm_base::number::{Moment, Oid};
use cm_base::object::Object;
use cm_base::text::Text;
use cm_base::value::Values;
use cm_draft::draft::Draft;
use cm_state::state::State;
use std::alloc::{AllocError, Global};
use wr_rules::wanted::Wanted;

/// The object in no series that is made of what is wanted, with these values.
pub fn new_object(
    alloc: Global,
    state: &State,
    user: &Text,
    moment: Moment,
    wanted: Wanted<'_>,
    values: Values,
) -> Result<Object, AllocError>
    requires room { state.now.step + 1 < 2 ^ 64 }
    ensures { IfOk result (λ x. x ≡ object_of state.now user.now moment wanted.entry values) }
{
    Ok(Object {
        id: Oid(state.next_number()),
        kind: wanted.kind,
        name: Some(wanted.name),
        secondary: wanted.secondary,
        values,
        created_by: user.copied(alloc)?,
        created_at: moment,
        modified_by: user.copied(alloc)?,
        modified_at: moment,
        token: state.step() + 1,
        series: None,
    })
}

/// The object with its access list and policies, in the folder, one step further, with its event.
pub(crate) fn made_in(
    alloc: Global,
    state: &State,
    object: Object,
    aces: Aces,
    policies: &[Oid],
    folder: Oid,
    cost: u64,
    moment: Moment,
) -> Result<Draft, AllocError>
    requires number { object.id ≡ new_number state.now }
    requires next { state.now.next + 1 < 2 ^ 64 }
    requires step { state.now.step + 1 < 2 ^ 64 }
    requires cost { state.now.cost + cost < 2 ^ 64 }
    ensures { IfOk result (λ d. d ≡
        noted (stepped (with_pair (with_object state.now object aces policies.now) folder object.id) cost)
        Created object.id moment []) }
{
    let number = object.id;
    let _step = state.step();
    let begun = Draft::of(alloc, state)?;
    let made = begun.with_object(alloc, object, aces, policies)?;
    let filed = made.with_pair(alloc, folder, number)?;
    let paid = filed.stepped(cost);
    let noted = paid.noted(
        alloc,
        ChangeKind::Created,
        number,
        moment,
        Items::new(alloc),
    )?;
    Ok(noted)
}
