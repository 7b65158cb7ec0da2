//! addObjectToFolder (CMIS 1.1, section 2.2.5.1).
ghost use Rattle.std.specs.Prelude.{◌≡◌, ◌+◌, ◌<◌, ◌^◌, Ok, Some, IfOk};
ghost use Rattle.cm_base.specs.Judged.{Meets, Writes};
ghost use Rattle.cmis_spec.specs.Repository.{entry_of};
ghost use Rattle.cmis_spec.specs.Changes.{with_pair};
ghost use Rattle.cmis_spec.specs.Well.{IsWellFormed};
ghost use Rattle.cm_see.specs.Addressed.{addressed};
ghost use Rattle.wr_rules.specs.Found.{FindsWith};
ghost use Rattle.wr_filing.specs.Filing.{folder_named, changed_by};
ghost use Rattle.wr_filing.specs.AddToFolder.{cost_add_to_folder, judge_kinds, has_its_name, judge_addition, refusal_add_to_folder, after_add_to_folder, acknowledgement_add_to_folder};

use crate::filing::{changed_by, lacks_either, may_be_filed};
use call_parts::changes::AddToFolder;
use call_parts::replies::ObjectReply;
use call_parts::weight::weight_of_add;
use cm_base::cause::Cause;
use cm_base::fail::Fail;
use cm_base::number::{Moment, Oid};
use cm_base::object::Object;
use cm_base::text::Text;
use cm_draft::draft::Draft;
use cm_see::address::addressed;
use cm_see::read::read_named;
use cm_state::look::entry_of;
use cm_state::state::State;
use cm_types::definition::BaseType;
use std::alloc::{AllocError, Global};
use wr_rules::kinds::bars_child;
use wr_rules::made::with_changed;
use wr_rules::storage::judge_storage;

// The object may be filed in one folder more, and the folder takes its type.
fn judge_kinds(state: &State, user: &Text, x: &Object, folder: &Object) -> Result<(), Cause>
    ensures { result ≡ judge_kinds state.now user.now x.now folder.now }
{
    if lacks_either(state, user, x, folder) {
        return Err(Cause::Denied);
    }
    if !may_be_filed(state, x) {
        return Err(Cause::NotFileable);
    }
    if !state.is_a(BaseType::Folder, folder) {
        return Err(Cause::WrongKind);
    }
    if state.is_a(BaseType::Folder, x) {
        return Err(Cause::OneParent);
    }
    if state.is_filed(folder.id, entry_of(x)) {
        return Err(Cause::AlreadyFiled);
    }
    if bars_child(state, folder, &x.kind) {
        return Err(Cause::ChildType);
    }
    Ok(())
}

// Another child of the folder has the name of the entry.
fn has_its_name(alloc: Global, state: &State, folder: Oid, n: Oid) -> Result<bool, AllocError>
    ensures { IfOk result (λ b. b ≡ has_its_name state.now folder n) }
{
    let name = Text::from_str(alloc, state.entry_text(n))?;
    Ok(state.is_taken(folder, n, &name))
}

#[tactic(auto, using(cm_types::proofs::Exits::fails_then))]
fn judge_addition(
    alloc: Global,
    state: &State,
    user: &Text,
    x: &Object,
    folder: &Object,
) -> Result<(), Fail>
    ensures { Meets (λ x. x) result (judge_addition state.now user.now x.now folder.now) }
{
    judge_kinds(state, user, x, folder)?;
    let is_taken = has_its_name(alloc, state, folder.id, entry_of(x))?;
    if is_taken {
        return Err(Fail::Refused(Cause::NameTaken));
    }
    Ok(())
}

// The object that is addressed and the folder, or the cause of the refusal.
#[tactic(auto, using(cm_types::proofs::Exits::fails_then, cm_types::proofs::Exits::fails_bind))]
fn judge<'a>(
    alloc: Global,
    state: &'a State,
    user: &Text,
    call: &AddToFolder,
) -> Result<(&'a Object, Oid), Fail>
    ensures { FindsWith (λ x. x.now) result
        (refusal_add_to_folder state.now user.now (cost_add_to_folder call.now) call.now)
        (addressed state.now user.now call.now.place)
        (λ _. folder_named state.now user.now call.now.folder) }
{
    judge_storage(state, weight_of_add(call))?;
    let x = addressed(state, user, &call.place).ok_or(Cause::NotFound)?;
    let folder = read_named(state, user, &call.folder).ok_or(Cause::NotFound)?;
    judge_addition(alloc, state, user, x, folder)?;
    Ok((x, folder.id))
}

// The object in the folder too, one step further.
fn added_to(
    alloc: Global,
    state: &State,
    x: &Object,
    folder: Oid,
    moment: Moment,
    cost: u64,
) -> Result<Draft, AllocError>
    requires step { state.now.step + 1 < 2 ^ 64 }
    requires cost { state.now.cost + cost < 2 ^ 64 }
    ensures { IfOk result (λ d. d ≡ changed_by (with_pair state.now folder (entry_of x.now)) x.now.id moment cost) }
{
    let begun = Draft::of(alloc, state)?;
    let put = begun.with_pair(alloc, folder, entry_of(x))?;
    let changed = changed_by(alloc, put, x.id, moment, cost)?;
    Ok(changed)
}

// The state in which the object that the call addresses stands in the folder too.
fn with_addition(
    alloc: Global,
    state: &State,
    user: &Text,
    moment: Moment,
    call: &AddToFolder,
    x: &Object,
    folder: Oid,
) -> Result<State, AllocError>
    requires allowed { refusal_add_to_folder state.now user.now (cost_add_to_folder call.now) call.now ≡ Ok tt }
    requires found { addressed state.now user.now call.now.place ≡ Some x.now }
    requires folder { folder ≡ folder_named state.now user.now call.now.folder }
    ensures { IfOk result (λ s. s
        ≡ after_add_to_folder state.now user.now moment (cost_add_to_folder call.now) call.now) }
{
    let _step = state.step();
    let cost = weight_of_add(call);
    let draft = added_to(alloc, state, x, folder, moment, cost)?;
    Ok(draft.seal())
}

/// Files an object in one folder more. The cost is the weight of the call.
///
/// The answer is the first cause that refuses the call, or the repository after it and the object as the caller sees it there.
pub fn add_to_folder(
    alloc: Global,
    state: &State,
    user: &Text,
    moment: Moment,
    call: &AddToFolder,
) -> Result<(State, ObjectReply), Fail>
    ensures written { Writes result
        (refusal_add_to_folder state.now user.now (cost_add_to_folder call.now) call.now)
        (after_add_to_folder state.now user.now moment (cost_add_to_folder call.now) call.now)
        (acknowledgement_add_to_folder state.now user.now moment (cost_add_to_folder call.now) call.now) }
    ensures well { IfOk result (λ x. IsWellFormed x.0) }
{
    let _step = state.step();
    let (x, folder) = judge(alloc, state, user, call)?;
    let added = with_addition(alloc, state, user, moment, call, x, folder)?;
    let (next, reply) = with_changed(alloc, added, user, call.succinct, x.id)?;
    let _next_step = next.step();
    Ok((next, reply))
}
