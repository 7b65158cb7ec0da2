//! The rules of createFolder, part by part.
ghost use Rattle.std.specs.Prelude.{◌≡◌, ◌||◌, not, IfOk, nat_le};
ghost use Rattle.cm_base.specs.Judged.{Meets};
ghost use Rattle.cm_types.specs.declared.definition.BaseType.TheVariants as bases;
ghost use Rattle.cm_types.specs.Types.{same_base};
ghost use Rattle.cmis_spec.specs.Repository.{is_a, most_levels, depth_of};
ghost use Rattle.wr_rules.specs.Rules.{has_other_policy, has_other_secondary};
ghost use Rattle.wr_object.specs.CreateFolder.{is_uncontrollable, judge_kinds, judge_place, judge_name};

use crate::asked::{bars_changes, has_unknown};
use call_parts::writes::CreateFolder;
use cm_base::access::Level;
use cm_base::cause::Cause;
use cm_base::fail::Fail;
use cm_base::name::name_ok;
use cm_base::number::Oid;
use cm_base::object::Object;
use cm_base::text::Text;
use cm_see::level::lacks;
use cm_see::tree::depth_of;
use cm_state::state::State;
use cm_type_list::types::Types;
use cm_types::definition::{BaseType, TypeDef};
use std::alloc::{AllocError, Global};
use wr_rules::kinds::{bars_child, has_other_secondary};
use wr_rules::policies::has_other_policy;

fn is_wrong_place(state: &State, user: &Text, parent: &Object, policies: &[Text]) -> bool
    ensures { result
        ≡ (not (is_a state.now bases.Folder parent.now) || has_other_policy state.now user.now policies.now) }
{
    !state.is_a(BaseType::Folder, parent) || has_other_policy(state, user, policies)
}

fn is_folder_type(kind: &TypeDef) -> bool
    ensures { result ≡ same_base bases.Folder kind.now.base }
{
    match kind.base {
        BaseType::Folder => true,
        _ => false,
    }
}

fn is_wrong_type(
    alloc: Global,
    types: &Types,
    kind: &TypeDef,
    secondary: &[Text],
) -> Result<bool, AllocError>
    ensures { IfOk result (λ b. b ≡
        (not (same_base bases.Folder kind.now.base) || has_other_secondary types.now secondary.now)) }
{
    if !is_folder_type(kind) {
        return Ok(true);
    }
    has_other_secondary(alloc, types, secondary)
}

/// The caller may write in the parent, and a folder of the type may be made there.
pub(crate) fn judge_kinds(
    alloc: Global,
    state: &State,
    user: &Text,
    policies: &[Text],
    secondary: &[Text],
    parent: &Object,
    kind: &TypeDef,
) -> Result<(), Fail>
    ensures { Meets (λ x. x) result (judge_kinds state.now user.now policies.now secondary.now parent.now kind.now) }
{
    if lacks(state, user, Level::Write, parent) {
        return Err(Fail::Refused(Cause::Denied));
    }
    if is_wrong_place(state, user, parent, policies) {
        return Err(Fail::Refused(Cause::WrongKind));
    }
    let is_wrong = is_wrong_type(alloc, state.types(), kind, secondary)?;
    if is_wrong {
        return Err(Fail::Refused(Cause::TypeKind));
    }
    if !kind.creatable {
        return Err(Fail::Refused(Cause::NotCreatable));
    }
    Ok(())
}

#[tactic(auto, unfolding(cmis_spec::specs::Repository::most_levels))]
fn most_levels() -> u64
    ensures { result ≡ most_levels }
{
    48
}

fn is_deep(state: &State, parent: Oid) -> bool
    ensures { result ≡ nat_le most_levels (depth_of state.now parent) }
{
    most_levels() <= depth_of(state, parent)
}

fn is_uncontrollable(kind: &TypeDef, call: &CreateFolder) -> bool
    ensures { result ≡ is_uncontrollable kind.now call.now }
{
    bars_changes(
        kind,
        call.policies.as_slice(),
        call.remove.as_slice(),
        call.add.as_slice(),
    )
}

/// The parent takes a folder of the type, and the type lets what is asked be applied to it. Takes no memory.
pub(crate) fn judge_place(
    state: &State,
    call: &CreateFolder,
    parent: &Object,
    kind: &TypeDef,
) -> Result<(), Cause>
    ensures { result ≡ judge_place state.now call.now parent.now kind.now }
{
    if bars_child(state, parent, &kind.id) {
        return Err(Cause::ChildType);
    }
    if is_deep(state, parent.id) {
        return Err(Cause::Deep);
    }
    if is_uncontrollable(kind, call) {
        return Err(Cause::NotControllable);
    }
    Ok(())
}

/// The entries that are asked for and the name are right, and no other child of the parent has the name. Takes no memory.
pub(crate) fn judge_name(
    state: &State,
    call: &CreateFolder,
    parent: Oid,
    name: &Text,
) -> Result<(), Cause>
    ensures { result ≡ judge_name state.now call.now parent name.now }
{
    if has_unknown(call.remove.as_slice(), call.add.as_slice()) {
        return Err(Cause::Permission);
    }
    if !name_ok(name.bytes()) {
        return Err(Cause::BadName);
    }
    if state.is_taken(parent, Oid(state.next_number()), name) {
        return Err(Cause::NameTaken);
    }
    Ok(())
}
