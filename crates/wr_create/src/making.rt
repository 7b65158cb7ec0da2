//! The object that a call makes, with its access list, its policies and its place.
ghost use Rattle.std.specs.Prelude.{◌≡◌, ◌+◌, ◌<◌, ◌^◌, IfOk};
ghost use Rattle.cmis_spec.specs.Repository.{new_number};
ghost use Rattle.cmis_spec.specs.Changes.{stepped, with_object};
ghost use Rattle.cmis_spec.specs.Well.{Apart, ComesBefore, IsWellFormed};
ghost use Rattle.wr_object.specs.CreateDocument.{filed_at};
ghost use Rattle.wr_create.specs.Making.{new_of, after_making, reply_of_making};

use call_parts::replies::ObjectReply;
use cm_base::access::Aces;
use cm_base::items::Items;
use cm_base::log::ChangeKind;
use cm_base::number::{Oid, Oids};
use cm_base::object::Object;
use cm_base::text::Text;
use cm_draft::draft::Draft;
use cm_state::state::State;
use create_parts::writes::ObjectRequest;
use std::alloc::{AllocError, Global};
use wr_rules::entries::new_aces;
use wr_rules::made::with_reply;
use wr_rules::policies::policies_in;

/// A new object with its access list, its policies and the folder in which it is to stand, if there is one.
#[derive(Drop)]
pub struct NewObject {
    pub object: Object,
    pub aces: Aces,
    pub policies: Oids,
    pub folder: Option<Oid>,
}

/// The object with the access list and the policies that the call asks for.
pub fn with_request(
    alloc: Global,
    state: &State,
    user: &Text,
    object: Object,
    request: &ObjectRequest,
    folder: Option<Oid>,
) -> Result<NewObject, AllocError>
    ensures new { IfOk result (λ n. n ≡ new_of state.now user.now request.now object folder) }
    ensures ordered { IfOk result (λ n. Apart ComesBefore n.aces) }
{
    let aces = new_aces(
        alloc,
        user,
        request.remove.as_slice(),
        request.add.as_slice(),
    )?;
    let policies = policies_in(alloc, state, user, request.policies.as_slice())?;
    Ok(NewObject {
        object,
        aces,
        policies,
        folder,
    })
}

// The draft with the child in the folder, if there is one.
fn filed_at(
    alloc: Global,
    draft: Draft,
    folder: Option<Oid>,
    number: Oid,
) -> Result<Draft, AllocError>
    ensures { IfOk result (λ d. d ≡ filed_at draft folder number) }
{
    match folder {
        Some(folder) => {
            let filed = draft.with_pair(alloc, folder, number)?;
            Ok(filed)
        }
        None => Ok(draft),
    }
}

// One step further, with the object.
fn entered(
    alloc: Global,
    state: &State,
    object: Object,
    aces: Aces,
    policies: &[Oid],
    cost: u64,
) -> Result<Draft, AllocError>
    requires number { object.id ≡ new_number state.now }
    requires next { state.now.next + 1 < 2 ^ 64 }
    requires step { state.now.step + 1 < 2 ^ 64 }
    requires cost { state.now.cost + cost < 2 ^ 64 }
    ensures { IfOk result (λ d. d ≡ with_object (stepped state.now cost) object aces policies.now) }
{
    let _step = state.step();
    let begun = Draft::of(alloc, state)?;
    let paid = begun.stepped(cost);
    let made = paid.with_object(alloc, object, aces, policies)?;
    Ok(made)
}

// One step further, with the object in its folder, and with its event.
fn made_in(alloc: Global, state: &State, new: NewObject, cost: u64) -> Result<Draft, AllocError>
    requires number { new.object.id ≡ new_number state.now }
    requires next { state.now.next + 1 < 2 ^ 64 }
    requires step { state.now.step + 1 < 2 ^ 64 }
    requires cost { state.now.cost + cost < 2 ^ 64 }
    ensures { IfOk result (λ d. d ≡ after_making state.now cost new) }
{
    let number = new.object.id;
    let moment = new.object.created_at;
    let folder = new.folder;
    let policies = new.policies;
    let made = entered(
        alloc,
        state,
        new.object,
        new.aces,
        policies.as_slice(),
        cost,
    )?;
    let filed = filed_at(alloc, made, folder, number)?;
    let noted = filed.noted(
        alloc,
        ChangeKind::Created,
        number,
        moment,
        Items::new(alloc),
    )?;
    Ok(noted)
}

fn made_of(alloc: Global, state: &State, new: NewObject, cost: u64) -> Result<State, AllocError>
    requires number { new.object.id ≡ new_number state.now }
    requires next { state.now.next + 1 < 2 ^ 64 }
    requires step { state.now.step + 1 < 2 ^ 64 }
    requires cost { state.now.cost + cost < 2 ^ 64 }
    requires well { IsWellFormed (after_making state.now cost new) }
    ensures { IfOk result (λ s. s ≡ after_making state.now cost new) }
{
    let draft = made_in(alloc, state, new, cost)?;
    Ok(draft.seal())
}

/// The state with what a call makes, one step further at this cost, and the reply that shows the new object.
pub fn made_with_reply(
    alloc: Global,
    state: &State,
    user: &Text,
    new: NewObject,
    cost: u64,
    succinct: bool,
) -> Result<(State, ObjectReply), AllocError>
    requires number { new.object.id ≡ new_number state.now }
    requires next { state.now.next + 1 < 2 ^ 64 }
    requires step { state.now.step + 1 < 2 ^ 64 }
    requires cost { state.now.cost + cost < 2 ^ 64 }
    requires well { IsWellFormed (after_making state.now cost new) }
    ensures made { IfOk result (λ a. a.0 ≡ after_making state.now cost new) }
    ensures shown { IfOk result (λ a. a.1 ≡ reply_of_making state.now cost user.now succinct new) }
{
    let _step = state.step();
    let made = made_of(alloc, state, new, cost)?;
    let number = Oid(state.next_number());
    let (next, reply) = with_reply(alloc, made, user, succinct, number)?;
    Ok((next, reply))
}
