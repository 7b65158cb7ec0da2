//! removeObjectFromFolder (CMIS 1.1, section 2.2.5.2).
ghost use Rattle.std.specs.Prelude.{◌≡◌, ◌+◌, ◌<◌, ◌^◌, ◌||◌, Option, Ok, Some, IfOk, map, fold, option_map};
ghost use Rattle.std.specs.List.{list_any};
ghost use Rattle.cm_base.specs.Judged.{Leaves, Writes};
ghost use Rattle.cmis_spec.specs.Repository.{entry_of};
ghost use Rattle.cmis_spec.specs.Access.{lacks};
ghost use Rattle.cmis_spec.specs.Changes.{stepped, without_pair};
ghost use Rattle.cm_state.specs.Looks.{folders_in};
ghost use Rattle.cm_base.specs.declared.access.Level.TheVariants as levels;
ghost use Rattle.cmis_spec.specs.Well.{IsWellFormed};
ghost use Rattle.cm_see.specs.Addressed.{addressed};
ghost use Rattle.wr_rules.specs.Found.{FindsWith};
ghost use Rattle.wr_filing.specs.Filing.{folder_named, lacks_at, lacks_anywhere, unfiled, out_of, changed_by};
ghost use Rattle.wr_filing.specs.RemoveFromFolder.{cost_remove_from_folder, judge_removal, judge_unfiling, judge_by_folder, refusal_remove_from_folder, unfiled_by, removed_by, after_remove_from_folder, acknowledgement_remove_from_folder};

use crate::filing::{changed_by, lacks_at, lacks_either, may_be_filed};
use call_parts::changes::RemoveFromFolder;
use call_parts::replies::ObjectReply;
use call_parts::weight::weight_of_remove;
use cm_base::access::Level;
use cm_base::cause::Cause;
use cm_base::fail::Fail;
use cm_base::number::{Moment, Oid};
use cm_base::object::Object;
use cm_base::text::Text;
use cm_draft::draft::Draft;
use cm_map::map::Map;
use cm_see::address::addressed;
use cm_see::level::lacks;
use cm_see::read::read_named;
use cm_state::look::entry_of;
use cm_state::state::State;
use cm_types::definition::BaseType;
use std::alloc::{AllocError, Global};
use wr_rules::made::with_changed;
use wr_rules::storage::judge_storage;

fn lacks_among(state: &State, user: &Text, folders: &Map<u64, Oid>) -> bool
    ensures { result ≡ list_any (λ e. lacks_at state.now user.now levels.Write e.1) folders.now }
{
    let mut found = false;
    for entry in folders.iter() {
        let at: &(u64, Oid) = entry;
        found = lacks_at(state, user, Level::Write, at.1) || found;
    }
    found
}

// The caller may not write in one of the folders in which the entry is filed.
fn lacks_anywhere(state: &State, user: &Text, n: Oid) -> bool
    ensures { result ≡ lacks_anywhere state.now user.now n }
{
    match state.folders(n) {
        Some(folders) => lacks_among(state, user, folders),
        None => false,
    }
}

fn lacks_one(state: &State, user: &Text, x: &Object) -> bool
    ensures { result
        ≡ (lacks state.now user.now levels.Write x.now || lacks_anywhere state.now user.now (entry_of x.now)) }
{
    lacks(state, user, Level::Write, x) || lacks_anywhere(state, user, entry_of(x))
}

// The object may be taken out of the folder.
fn judge_removal(state: &State, user: &Text, x: &Object, folder: &Object) -> Result<(), Cause>
    ensures { result ≡ judge_removal state.now user.now x.now folder.now }
{
    if lacks_either(state, user, x, folder) {
        return Err(Cause::Denied);
    }
    if !may_be_filed(state, x) {
        return Err(Cause::NotFileable);
    }
    if !state.is_a(BaseType::Folder, folder) {
        return Err(Cause::WrongKind);
    }
    if state.is_a(BaseType::Folder, x) {
        return Err(Cause::OneParent);
    }
    if !state.is_filed(folder.id, entry_of(x)) {
        return Err(Cause::NotFiled);
    }
    Ok(())
}

// The object may be taken out of all its folders.
fn judge_unfiling(state: &State, user: &Text, x: &Object) -> Result<(), Cause>
    ensures { result ≡ judge_unfiling state.now user.now x.now }
{
    if lacks_one(state, user, x) {
        return Err(Cause::Denied);
    }
    if !may_be_filed(state, x) {
        return Err(Cause::NotFileable);
    }
    if state.is_a(BaseType::Folder, x) {
        return Err(Cause::OneParent);
    }
    Ok(())
}

// The folder of this id, out of which the object may be taken.
#[tactic(auto, using(cm_types::proofs::Exits::fails_then, cm_types::proofs::Exits::fails_bind))]
fn judge_named(state: &State, user: &Text, x: &Object, id: &Text) -> Result<Oid, Fail>
    ensures { Leaves result
        (judge_by_folder state.now user.now x.now (Some id.now))
        (folder_named state.now user.now id.now) }
{
    let folder = read_named(state, user, id).ok_or(Cause::NotFound)?;
    judge_removal(state, user, x, folder)?;
    Ok(folder.id)
}

// By the folder that is named, if one is.
fn judge_by_folder(
    state: &State,
    user: &Text,
    x: &Object,
    folder: &Option<Text>,
) -> Result<Option<Oid>, Fail>
    ensures { Leaves result
        (judge_by_folder state.now user.now x.now folder.now)
        (option_map (folder_named state.now user.now) folder.now) }
{
    match folder {
        Some(id) => {
            let folder = judge_named(state, user, x, id)?;
            Ok(Some(folder))
        }
        None => {
            judge_unfiling(state, user, x)?;
            Ok(None)
        }
    }
}

// The object that is addressed and the folder that is named, if one is, or the cause of the refusal.
#[tactic(auto, using(cm_types::proofs::Exits::fails_then, cm_types::proofs::Exits::fails_bind))]
fn judge<'a>(
    state: &'a State,
    user: &Text,
    call: &RemoveFromFolder,
) -> Result<(&'a Object, Option<Oid>), Fail>
    ensures { FindsWith (λ x. x.now) result
        (refusal_remove_from_folder state.now user.now (cost_remove_from_folder call.now) call.now)
        (addressed state.now user.now call.now.place)
        (λ _. option_map (folder_named state.now user.now) call.now.folder) }
{
    judge_storage(state, weight_of_remove(call))?;
    let x = addressed(state, user, &call.place).ok_or(Cause::NotFound)?;
    let folder = judge_by_folder(state, user, x, &call.folder)?;
    Ok((x, folder))
}

// The draft without the entry in these folders.
fn taken_out(
    alloc: Global,
    draft: Draft,
    folders: &Map<u64, Oid>,
    n: Oid,
) -> Result<Draft, AllocError>
    ensures { IfOk result (λ d. d ≡ fold (λ d e. out_of n d e.1) draft folders.now) }
{
    let mut draft = draft;
    for entry in folders.iter() {
        let at: &(u64, Oid) = entry;
        draft = draft.without_pair(alloc, at.1, n)?;
    }
    Ok(draft)
}

// The draft without the entry in any folder; these are its folders.
fn unfiled(
    alloc: Global,
    state: &State,
    folders: &Map<u64, Oid>,
    n: Oid,
) -> Result<Draft, AllocError>
    requires folders { map (λ e. e.1) folders.now ≡ folders_in state.now n }
    ensures { IfOk result (λ d. d ≡ unfiled state.now n) }
{
    let begun = Draft::of(alloc, state)?;
    let out = taken_out(alloc, begun, folders, n)?;
    Ok(out)
}

// The state one step further.
fn stepped(alloc: Global, state: &State, cost: u64) -> Result<Draft, AllocError>
    requires step { state.now.step + 1 < 2 ^ 64 }
    requires cost { state.now.cost + cost < 2 ^ 64 }
    ensures { IfOk result (λ d. d ≡ stepped state.now cost) }
{
    let begun = Draft::of(alloc, state)?;
    Ok(begun.stepped(cost))
}

// The object in none of these folders, which are its own, one step further; where there are none, the step alone.
fn unfiled_from(
    alloc: Global,
    state: &State,
    x: &Object,
    folders: &Map<u64, Oid>,
    moment: Moment,
    cost: u64,
) -> Result<Draft, AllocError>
    requires step { state.now.step + 1 < 2 ^ 64 }
    requires cost { state.now.cost + cost < 2 ^ 64 }
    requires folders { map (λ e. e.1) folders.now ≡ folders_in state.now (entry_of x.now) }
    ensures { IfOk result (λ d. d ≡ unfiled_by state.now moment cost x.now) }
{
    if folders.is_empty() {
        let paid = stepped(alloc, state, cost)?;
        return Ok(paid);
    }
    let out = unfiled(alloc, state, folders, entry_of(x))?;
    let changed = changed_by(alloc, out, x.id, moment, cost)?;
    Ok(changed)
}

fn unfiled_by(
    alloc: Global,
    state: &State,
    x: &Object,
    moment: Moment,
    cost: u64,
) -> Result<Draft, AllocError>
    requires step { state.now.step + 1 < 2 ^ 64 }
    requires cost { state.now.cost + cost < 2 ^ 64 }
    ensures { IfOk result (λ d. d ≡ unfiled_by state.now moment cost x.now) }
{
    match state.folders(entry_of(x)) {
        Some(folders) => unfiled_from(alloc, state, x, folders, moment, cost),
        None => {
            let paid = stepped(alloc, state, cost)?;
            Ok(paid)
        }
    }
}

// The object not in the folder, one step further.
fn taken_from(
    alloc: Global,
    state: &State,
    x: &Object,
    folder: Oid,
    moment: Moment,
    cost: u64,
) -> Result<Draft, AllocError>
    requires step { state.now.step + 1 < 2 ^ 64 }
    requires cost { state.now.cost + cost < 2 ^ 64 }
    ensures { IfOk result (λ d. d
        ≡ changed_by (without_pair state.now folder (entry_of x.now)) x.now.id moment cost) }
{
    let begun = Draft::of(alloc, state)?;
    let out = begun.without_pair(alloc, folder, entry_of(x))?;
    let changed = changed_by(alloc, out, x.id, moment, cost)?;
    Ok(changed)
}

// The object out of the folder, or of all where none is named, one step further.
fn removed_by(
    alloc: Global,
    state: &State,
    x: &Object,
    folder: Option<Oid>,
    moment: Moment,
    cost: u64,
) -> Result<Draft, AllocError>
    requires step { state.now.step + 1 < 2 ^ 64 }
    requires cost { state.now.cost + cost < 2 ^ 64 }
    ensures { IfOk result (λ d. d ≡ removed_by state.now moment cost x.now folder) }
{
    match folder {
        Some(folder) => taken_from(alloc, state, x, folder, moment, cost),
        None => unfiled_by(alloc, state, x, moment, cost),
    }
}

// The state in which the object that the call addresses is out of its folder, or of all.
fn with_removal(
    alloc: Global,
    state: &State,
    user: &Text,
    moment: Moment,
    call: &RemoveFromFolder,
    x: &Object,
    folder: Option<Oid>,
) -> Result<State, AllocError>
    requires allowed { refusal_remove_from_folder state.now user.now
        (cost_remove_from_folder call.now) call.now ≡ Ok tt }
    requires found { addressed state.now user.now call.now.place ≡ Some x.now }
    requires folder { folder ≡ option_map (folder_named state.now user.now) call.now.folder }
    ensures { IfOk result (λ s. s
        ≡ after_remove_from_folder state.now user.now moment (cost_remove_from_folder call.now) call.now) }
{
    let _step = state.step();
    let cost = weight_of_remove(call);
    let draft = removed_by(alloc, state, x, folder, moment, cost)?;
    Ok(draft.seal())
}

/// Takes an object out of a folder, or of all where none is named. The cost is the weight of the call.
///
/// The answer is the first cause that refuses the call, or the repository after it and the object as the caller sees it there.
pub fn remove_from_folder(
    alloc: Global,
    state: &State,
    user: &Text,
    moment: Moment,
    call: &RemoveFromFolder,
) -> Result<(State, ObjectReply), Fail>
    ensures written { Writes result
        (refusal_remove_from_folder state.now user.now (cost_remove_from_folder call.now) call.now)
        (after_remove_from_folder state.now user.now moment (cost_remove_from_folder call.now) call.now)
        (acknowledgement_remove_from_folder state.now user.now moment (cost_remove_from_folder call.now) call.now) }
    ensures well { IfOk result (λ x. IsWellFormed x.0) }
{
    let _step = state.step();
    let (x, folder) = judge(state, user, call)?;
    let removed = with_removal(alloc, state, user, moment, call, x, folder)?;
    let (next, reply) = with_changed(alloc, removed, user, call.succinct, x.id)?;
    let _next_step = next.step();
    Ok((next, reply))
}
