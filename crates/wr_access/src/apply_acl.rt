//! applyACL (CMIS 1.1, section 2.2.10.1).
ghost use Rattle.std.specs.Prelude.{◌≡◌, ◌+◌, ◌<◌, ◌^◌, Ok, Some, IfOk, find, is_some, true};
ghost use Rattle.cm_base.specs.Judged.{Writes};
ghost use Rattle.cm_acl.specs.Acl.{changed_aces};
ghost use Rattle.cm_see.specs.Addressed.{addressed};
ghost use Rattle.cmis_spec.specs.Access.{aces_at};
ghost use Rattle.cmis_spec.specs.Repository.{entry_of, same};
ghost use Rattle.cmis_spec.specs.Well.{Apart, ComesBefore, IsWellFormed};
ghost use Rattle.rd_access.specs.ReadAcl.{acl_reply};
ghost use Rattle.wr_rules.specs.Found.{Finds};
ghost use Rattle.wr_rules.specs.Rules.{aces_in};
ghost use Rattle.wr_access.specs.ApplyAcl.{cost_apply_acl, may_not_change, keeps_its_list, is_offered, judge_change, refusal_apply_acl, changed_list, relisted, after_apply_acl, acknowledgement_apply_acl};

use access_parts::weight::weight_of_apply_acl;
use access_parts::writes::{ApplyAcl, Propagation};
use call_parts::replies::AclReply;
use cm_acl::change::apply;
use cm_acl::level::is_at_least;
use cm_base::access::{AccessList, Aces, Level};
use cm_base::cause::Cause;
use cm_base::fail::Fail;
use cm_base::items::Items;
use cm_base::log::ChangeKind;
use cm_base::number::{Moment, Oid};
use cm_base::object::Object;
use cm_base::text::Text;
use cm_draft::draft::Draft;
use cm_see::address::addressed;
use cm_see::level::level_by_list;
use cm_state::look::entry_of;
use cm_state::state::State;
use rd_access::acl::acl_reply;
use std::alloc::{AllocError, Global};
use wr_rules::entries::{aces_in, has_unknown_permission};
use wr_rules::storage::judge_storage;

// Whether the list of the object does not let the caller do anything.
fn may_not_change(state: &State, user: &Text, x: &Object) -> bool
    ensures { result ≡ may_not_change state.now user.now x.now }
{
    !is_at_least(Level::All, level_by_list(state, user, entry_of(x)))
}

// Whether objects of its type keep their lists.
fn keeps_its_list(state: &State, x: &Object) -> bool
    ensures { result ≡ keeps_its_list state.now x.now }
{
    match state.type_named(&x.kind) {
        Some(kind) => !kind.controllable_acl,
        None => false,
    }
}

fn is_offered(propagation: Propagation) -> bool
    ensures { result ≡ is_offered propagation }
{
    match propagation {
        Propagation::RepositoryDetermined => true,
        Propagation::ObjectOnly => true,
        Propagation::Propagate => false,
    }
}

// Whether the caller may change the list of the object, and the change is one that is offered.
fn judge_change(state: &State, user: &Text, call: &ApplyAcl, x: &Object) -> Result<(), Cause>
    ensures { result ≡ judge_change state.now user.now call.now x.now }
{
    if may_not_change(state, user, x) {
        return Err(Cause::Denied);
    }
    if keeps_its_list(state, x) {
        return Err(Cause::NotControllable);
    }
    if has_unknown_permission(call.remove.as_slice())
        || has_unknown_permission(call.add.as_slice())
    {
        return Err(Cause::Permission);
    }
    if !is_offered(call.propagation) {
        return Err(Cause::Propagation);
    }
    Ok(())
}

// The object that is addressed, or the cause of the refusal.
fn judge<'a>(state: &'a State, user: &Text, call: &ApplyAcl) -> Result<&'a Object, Cause>
    ensures { Finds (λ x. x.now) result
        (refusal_apply_acl state.now user.now (cost_apply_acl call.now) call.now)
        (addressed state.now user.now call.now.place) }
{
    judge_storage(state, weight_of_apply_acl(call))?;
    let x = addressed(state, user, &call.place).ok_or(Cause::NotFound)?;
    judge_change(state, user, call, x)?;
    Ok(x)
}

// The entries that are kept under the number, after the removals and then the additions.
fn changed_aces(alloc: Global, state: &State, call: &ApplyAcl, n: Oid) -> Result<Aces, AllocError>
    ensures list { IfOk result (λ aces. aces
        ≡ changed_aces (aces_at state.now n) (aces_in call.now.remove) (aces_in call.now.add)) }
    ensures ordered { IfOk result (λ aces. Apart ComesBefore aces) }
{
    let _step = state.step();
    let remove = aces_in(alloc, call.remove.as_slice())?;
    let add = aces_in(alloc, call.add.as_slice())?;
    match state.access_list(n) {
        Some(list) => apply(alloc, &list.aces, &remove, &add),
        None => apply(alloc, &Items::new(alloc), &remove, &add),
    }
}

// The list in place of the one that has its number, one step further, with the event of the object.
fn relisted(
    alloc: Global,
    state: &State,
    list: AccessList,
    x: &Object,
    moment: Moment,
    cost: u64,
) -> Result<State, AllocError>
    requires there { is_some (find (λ l. same l.at list.at) state.now.access) ≡ true }
    requires step { state.now.step + 1 < 2 ^ 64 }
    requires cost { state.now.cost + cost < 2 ^ 64 }
    requires well { IsWellFormed (relisted state.now list x.now moment cost) }
    ensures { IfOk result (λ s. s ≡ relisted state.now list x.now moment cost) }
{
    let begun = Draft::of(alloc, state)?;
    let put = begun.with_aces(alloc, list)?;
    let paid = put.stepped(cost);
    let noted = paid.noted(alloc, ChangeKind::Security, x.id, moment, Items::new(alloc))?;
    Ok(noted.seal())
}

// The state in which the list of the object that the call addresses is changed.
fn with_change(
    alloc: Global,
    state: &State,
    user: &Text,
    moment: Moment,
    call: &ApplyAcl,
    x: &Object,
) -> Result<State, AllocError>
    requires allowed { refusal_apply_acl state.now user.now (cost_apply_acl call.now) call.now ≡ Ok tt }
    requires found { addressed state.now user.now call.now.place ≡ Some x.now }
    ensures { IfOk result (λ s. s
        ≡ after_apply_acl state.now user.now moment (cost_apply_acl call.now) call.now) }
{
    let _step = state.step();
    let at = entry_of(x);
    let aces = changed_aces(alloc, state, call, at)?;
    let cost = weight_of_apply_acl(call);
    let made = relisted(alloc, state, AccessList { at, aces }, x, moment, cost)?;
    Ok(made)
}

// The state, with the list of the object in it.
fn with_list(alloc: Global, changed: State, x: &Object) -> Result<(State, AclReply), AllocError>
    ensures same { IfOk result (λ a. a.0 ≡ changed) }
    ensures shown { IfOk result (λ a. a.1 ≡ acl_reply changed x.now) }
{
    let reply = acl_reply(alloc, &changed, x)?;
    Ok((changed, reply))
}

/// Changes the access control list of an object, and of a document that of its series: the removals are done first, and one of an entry
/// that isn't there does nothing; then the additions. The cost is the weight of the call.
///
/// The answer is the first cause that refuses the call, or the repository after it and the list as it is there, also where the caller
/// no longer reads the object.
pub fn apply_acl(
    alloc: Global,
    state: &State,
    user: &Text,
    moment: Moment,
    call: &ApplyAcl,
) -> Result<(State, AclReply), Fail>
    ensures written { Writes result
        (refusal_apply_acl state.now user.now (cost_apply_acl call.now) call.now)
        (after_apply_acl state.now user.now moment (cost_apply_acl call.now) call.now)
        (acknowledgement_apply_acl state.now user.now moment (cost_apply_acl call.now) call.now) }
    ensures well { IfOk result (λ x. IsWellFormed x.0) }
{
    let _step = state.step();
    let x = judge(state, user, call)?;
    let made = with_change(alloc, state, user, moment, call, x)?;
    let (next, reply) = with_list(alloc, made, x)?;
    let _next_step = next.step();
    Ok((next, reply))
}
