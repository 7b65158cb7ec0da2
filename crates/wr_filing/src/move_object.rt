//! moveObject (CMIS 1.1, section 2.2.4.15).
ghost use Rattle.std.specs.Prelude.{◌≡◌, ◌+◌, ◌<◌, ◌^◌, ◌||◌, not, Ok, Some, IfOk, true, false};
ghost use Rattle.cm_base.specs.Judged.{Meets, Writes};
ghost use Rattle.cm_types.specs.declared.definition.BaseType.TheVariants as bases;
ghost use Rattle.cmis_spec.specs.Repository.{same, root, object_at, is_a, entry_of, is_filed};
ghost use Rattle.cmis_spec.specs.Well.{IsWellFormed};
ghost use Rattle.cm_see.specs.Addressed.{addressed};
ghost use Rattle.wr_rules.specs.Found.{FindsWith};
ghost use Rattle.wr_filing.specs.Filing.{folder_named};
ghost use Rattle.wr_filing.specs.MoveObject.{cost_move, lacks_one, judge_source, judge_target, judge_other_target, judge_move, refusal_move, moved_to, after_move, acknowledgement_move};

use crate::filing::{changed_by, may_be_filed};
use crate::shift::judge_place;
use call_parts::changes::MoveObject;
use call_parts::replies::ObjectReply;
use call_parts::weight::weight_of_move;
use cm_base::access::Level;
use cm_base::cause::Cause;
use cm_base::fail::Fail;
use cm_base::number::{Moment, Oid};
use cm_base::object::Object;
use cm_base::text::Text;
use cm_draft::draft::Draft;
use cm_see::address::addressed;
use cm_see::level::lacks;
use cm_see::read::read_named;
use cm_state::look::entry_of;
use cm_state::open::ROOT;
use cm_state::state::State;
use cm_types::definition::BaseType;
use std::alloc::{AllocError, Global};
use wr_rules::kinds::bars_child;
use wr_rules::made::with_changed;
use wr_rules::storage::judge_storage;

fn lacks_one(state: &State, user: &Text, x: &Object, source: &Object, target: &Object) -> bool
    ensures { result ≡ lacks_one state.now user.now x.now source.now target.now }
{
    lacks(state, user, Level::Write, x)
        || lacks(state, user, Level::Write, source)
        || lacks(state, user, Level::Write, target)
}

fn is_wrong_kind(state: &State, source: &Object, target: &Object) -> bool
    ensures { result ≡ (not (is_a state.now bases.Folder source.now)
        || not (is_a state.now bases.Folder target.now)) }
{
    !state.is_a(BaseType::Folder, source) || !state.is_a(BaseType::Folder, target)
}

// The object may be moved from the source.
fn judge_source(
    state: &State,
    user: &Text,
    x: &Object,
    source: &Object,
    target: &Object,
) -> Result<(), Cause>
    ensures { result ≡ judge_source state.now user.now x.now source.now target.now }
{
    if lacks_one(state, user, x, source, target) {
        return Err(Cause::Denied);
    }
    if !may_be_filed(state, x) {
        return Err(Cause::NotFileable);
    }
    if is_wrong_kind(state, source, target) {
        return Err(Cause::WrongKind);
    }
    if x.id == ROOT {
        return Err(Cause::RootFixed);
    }
    if !state.is_filed(source.id, entry_of(x)) {
        return Err(Cause::NotFiled);
    }
    Ok(())
}

// The target, another folder than the source, takes the object.
fn judge_target(
    alloc: Global,
    state: &State,
    x: &Object,
    source: Oid,
    target: &Object,
) -> Result<(), Fail>
    requires no_root { same (entry_of x.now) root ≡ false }
    requires filed { is_filed state.now source (entry_of x.now) ≡ true }
    requires other { same source target.now.id ≡ false }
    ensures { Meets (λ x. x) result (judge_target state.now x.now target.now) }
{
    if state.is_filed(target.id, entry_of(x)) {
        return Err(Fail::Refused(Cause::AlreadyFiled));
    }
    if bars_child(state, target, &x.kind) {
        return Err(Fail::Refused(Cause::ChildType));
    }
    judge_place(alloc, state, entry_of(x), source, target.id)
}

// What is moved onto its own folder stays.
fn judge_other_target(
    alloc: Global,
    state: &State,
    x: &Object,
    source: Oid,
    target: &Object,
) -> Result<(), Fail>
    requires no_root { same (entry_of x.now) root ≡ false }
    requires filed { is_filed state.now source (entry_of x.now) ≡ true }
    ensures { (s : Object) → s.id ≡ source
        → Meets (λ x. x) result (judge_other_target state.now x.now s target.now) }
{
    if source == target.id {
        return Ok(());
    }
    judge_target(alloc, state, x, source, target)
}

// The object may be moved from the one folder to the other.
#[tactic(auto, using(cm_types::proofs::Exits::fails_then))]
fn judge_move(
    alloc: Global,
    state: &State,
    user: &Text,
    x: &Object,
    source: &Object,
    target: &Object,
) -> Result<(), Fail>
    requires there { object_at state.now x.now.id ≡ Some x.now }
    ensures { Meets (λ x. x) result (judge_move state.now user.now x.now source.now target.now) }
{
    let _step = state.step();
    judge_source(state, user, x, source, target)?;
    judge_other_target(alloc, state, x, source.id, target)?;
    Ok(())
}

// The object that is addressed and the two folders, or the cause of the refusal.
#[tactic(auto, using(cm_types::proofs::Exits::fails_then, cm_types::proofs::Exits::fails_bind))]
fn judge<'a>(
    alloc: Global,
    state: &'a State,
    user: &Text,
    call: &MoveObject,
) -> Result<(&'a Object, (Oid, Oid)), Fail>
    ensures { FindsWith (λ x. x.now) result
        (refusal_move state.now user.now (cost_move call.now) call.now)
        (addressed state.now user.now call.now.place)
        (λ _. (folder_named state.now user.now call.now.source, folder_named state.now user.now call.now.target)) }
{
    let _step = state.step();
    judge_storage(state, weight_of_move(call))?;
    let x = addressed(state, user, &call.place).ok_or(Cause::NotFound)?;
    let source = read_named(state, user, &call.source).ok_or(Cause::NotFound)?;
    let target = read_named(state, user, &call.target).ok_or(Cause::NotFound)?;
    judge_move(alloc, state, user, x, source, target)?;
    Ok((x, (source.id, target.id)))
}

// The object in the target, one step further; onto its own folder the step alone.
fn moved_to(
    alloc: Global,
    state: &State,
    x: &Object,
    folders: (Oid, Oid),
    moment: Moment,
    cost: u64,
) -> Result<Draft, AllocError>
    requires step { state.now.step + 1 < 2 ^ 64 }
    requires cost { state.now.cost + cost < 2 ^ 64 }
    ensures { IfOk result (λ d. d ≡ moved_to state.now moment cost x.now folders.0 folders.1) }
{
    let begun = Draft::of(alloc, state)?;
    if folders.0 == folders.1 {
        return Ok(begun.stepped(cost));
    }
    let put = begun.moved(alloc, entry_of(x), folders.0, folders.1)?;
    let changed = changed_by(alloc, put, x.id, moment, cost)?;
    Ok(changed)
}

// The state in which the object that the call addresses stands in the target.
fn with_move(
    alloc: Global,
    state: &State,
    user: &Text,
    moment: Moment,
    call: &MoveObject,
    x: &Object,
    folders: (Oid, Oid),
) -> Result<State, AllocError>
    requires allowed { refusal_move state.now user.now (cost_move call.now) call.now ≡ Ok tt }
    requires found { addressed state.now user.now call.now.place ≡ Some x.now }
    requires folders { folders
        ≡ (folder_named state.now user.now call.now.source, folder_named state.now user.now call.now.target) }
    ensures { IfOk result (λ s. s ≡ after_move state.now user.now moment (cost_move call.now) call.now) }
{
    let _step = state.step();
    let cost = weight_of_move(call);
    let draft = moved_to(alloc, state, x, folders, moment, cost)?;
    Ok(draft.seal())
}

/// Moves an object from one folder to another. The cost is the weight of the call.
///
/// The answer is the first cause that refuses the call, or the repository after it and the object as the caller sees it there.
pub fn move_object(
    alloc: Global,
    state: &State,
    user: &Text,
    moment: Moment,
    call: &MoveObject,
) -> Result<(State, ObjectReply), Fail>
    ensures written { Writes result
        (refusal_move state.now user.now (cost_move call.now) call.now)
        (after_move state.now user.now moment (cost_move call.now) call.now)
        (acknowledgement_move state.now user.now moment (cost_move call.now) call.now) }
    ensures well { IfOk result (λ x. IsWellFormed x.0) }
{
    let _step = state.step();
    let (x, folders) = judge(alloc, state, user, call)?;
    let moved = with_move(alloc, state, user, moment, call, x, folders)?;
    let (next, reply) = with_changed(alloc, moved, user, call.succinct, x.id)?;
    let _next_step = next.step();
    Ok((next, reply))
}
