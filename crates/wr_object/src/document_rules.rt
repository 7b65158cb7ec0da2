//! The rules of createDocument, part by part.
ghost use Rattle.std.specs.Prelude.{◌≡◌, ◌&&◌, ◌||◌, not, false, IfOk, is_some, if◌then◌else◌, unwrap_or, option_map, option_and_then};
ghost use Rattle.std.specs.Option.{option_copied};
ghost use Rattle.cm_base.specs.Judged.{Meets};
ghost use Rattle.cm_base.specs.declared.series.VersioningState.TheVariants as states;
ghost use Rattle.cm_types.specs.declared.definition.BaseType.TheVariants as bases;
ghost use Rattle.cm_types.specs.Types.{same_base};
ghost use Rattle.cm_see.specs.Addressed.{addressed};
ghost use Rattle.wr_rules.specs.Rules.{has_other_policy, has_other_secondary, bars_child};
ghost use Rattle.wr_object.specs.CreateDocument.{folder_at, state_of, is_unversioned, has_other_state, is_uncontrollable, may_not_make, is_no_folder, is_name_taken, judge_kinds, judge_place, judge_name, number_of};

use crate::asked::{bars_changes, has_unknown};
use call_parts::place::Place;
use call_parts::versions::CreateDocument;
use cm_base::access::Level;
use cm_base::cause::Cause;
use cm_base::fail::Fail;
use cm_base::name::name_ok;
use cm_base::number::Oid;
use cm_base::object::Object;
use cm_base::series::VersioningState;
use cm_base::text::Text;
use cm_see::address::addressed;
use cm_see::level::lacks;
use cm_state::state::State;
use cm_type_list::types::Types;
use cm_types::definition::{BaseType, TypeDef};
use std::alloc::{AllocError, Global};
use wr_rules::content::judge_content;
use wr_rules::kinds::{bars_child, has_other_secondary};
use wr_rules::policies::has_other_policy;

/// The folder that is addressed, if one is. Takes no memory.
pub fn folder_of<'a>(
    state: &'a State,
    user: &Text,
    place: &Option<Place>,
) -> Result<Option<&'a Object>, Fail>
    ensures judged { Meets (λ f. option_copied f) result (folder_at state.now user.now place.now) }
    ensures found { IfOk result (λ f. option_copied f ≡ option_and_then (addressed state.now user.now) place.now) }
{
    match place {
        Some(place) => match addressed(state, user, place) {
            Some(folder) => Ok(Some(folder)),
            None => Err(Fail::Refused(Cause::NotFound)),
        },
        None => Ok(None),
    }
}

/// The number of the folder, if there is one.
pub fn number_of(folder: Option<&Object>) -> Option<Oid>
    ensures { result ≡ number_of (option_copied folder.entry) }
{
    match folder {
        Some(folder) => Some(folder.id),
        None => None,
    }
}

/// Whether the caller may make no document there. Takes no memory.
pub fn may_not_make(state: &State, user: &Text, folder: Option<&Object>) -> bool
    ensures { result ≡ may_not_make state.now user.now (option_copied folder.entry) }
{
    match folder {
        Some(folder) => lacks(state, user, Level::Write, folder),
        None => user.is_str("anonymous"),
    }
}

/// Whether what is addressed is no folder. Takes no memory.
pub fn is_no_folder(state: &State, folder: Option<&Object>) -> bool
    ensures { result ≡ is_no_folder state.now (option_copied folder.entry) }
{
    match folder {
        Some(folder) => !state.is_a(BaseType::Folder, folder),
        None => false,
    }
}

/// Whether what is addressed is no folder, or one of the policies is none. Takes no memory.
pub fn is_wrong_place(
    state: &State,
    user: &Text,
    folder: Option<&Object>,
    policies: &[Text],
) -> bool
    ensures { result ≡ (is_no_folder state.now (option_copied folder.entry)
        || has_other_policy state.now user.now policies.now) }
{
    is_no_folder(state, folder) || has_other_policy(state, user, policies)
}

fn is_document_type(kind: &TypeDef) -> bool
    ensures { result ≡ same_base bases.Document kind.now.base }
{
    match kind.base {
        BaseType::Document => true,
        _ => false,
    }
}

/// Whether the type is no type of documents, or one of the secondary types is none.
pub fn is_wrong_type(
    alloc: Global,
    types: &Types,
    kind: &TypeDef,
    secondary: &[Text],
) -> Result<bool, AllocError>
    ensures { IfOk result (λ b. b ≡
        (not (same_base bases.Document kind.now.base) || has_other_secondary types.now secondary.now)) }
{
    if !is_document_type(kind) {
        return Ok(true);
    }
    has_other_secondary(alloc, types, secondary)
}

/// The caller may make a document there, and a document of the type may be made.
pub(crate) fn judge_kinds(
    alloc: Global,
    state: &State,
    user: &Text,
    policies: &[Text],
    secondary: &[Text],
    folder: Option<&Object>,
    kind: &TypeDef,
) -> Result<(), Fail>
    ensures { Meets (λ x. x) result
        (judge_kinds state.now user.now policies.now secondary.now (option_copied folder.entry) kind.now) }
{
    if may_not_make(state, user, folder) {
        return Err(Fail::Refused(Cause::Denied));
    }
    if is_wrong_place(state, user, folder, policies) {
        return Err(Fail::Refused(Cause::WrongKind));
    }
    let is_wrong = is_wrong_type(alloc, state.types(), kind, secondary)?;
    if is_wrong {
        return Err(Fail::Refused(Cause::TypeKind));
    }
    if !kind.creatable {
        return Err(Fail::Refused(Cause::NotCreatable));
    }
    Ok(())
}

fn default_state(kind: &TypeDef) -> VersioningState
    ensures { result ≡ (if kind.now.versionable then states.Major else states.None) }
{
    if kind.versionable {
        VersioningState::Major
    } else {
        VersioningState::None
    }
}

/// The state in which the document is to be made: the given one, or else major for what is versionable.
pub fn state_of(kind: &TypeDef, call: &CreateDocument) -> VersioningState
    ensures { result ≡ state_of kind.now call.now }
{
    match call.state {
        Some(state) => state,
        None => default_state(kind),
    }
}

fn is_unversioned(state: VersioningState) -> bool
    ensures { result ≡ is_unversioned state }
{
    match state {
        VersioningState::None => true,
        VersioningState::CheckedOut => false,
        VersioningState::Minor => false,
        VersioningState::Major => false,
    }
}

fn has_other_state(kind: &TypeDef, call: &CreateDocument) -> bool
    ensures { result ≡ has_other_state kind.now call.now }
{
    let plain = is_unversioned(state_of(kind, call));
    if kind.versionable { plain } else { !plain }
}

/// Whether a folder is addressed and objects of the type are filed nowhere.
pub fn bars_filing(folder: Option<&Object>, kind: &TypeDef) -> bool
    ensures { result ≡ (is_some (option_copied folder.entry) && not kind.now.fileable) }
{
    folder.is_some() && !kind.fileable
}

/// Whether the folder takes no objects of the type. Takes no memory.
pub fn bars_kind(state: &State, folder: Option<&Object>, kind: &Text) -> bool
    ensures { result ≡
        unwrap_or (option_map (λ f. bars_child state.now f kind.now) (option_copied folder.entry)) false }
{
    match folder {
        Some(folder) => bars_child(state, folder, kind),
        None => false,
    }
}

fn is_uncontrollable(kind: &TypeDef, call: &CreateDocument) -> bool
    ensures { result ≡ is_uncontrollable kind.now call.now }
{
    bars_changes(
        kind,
        call.policies.as_slice(),
        call.remove.as_slice(),
        call.add.as_slice(),
    )
}

/// The folder takes a document of the type, and the type lets what is asked be done to it. Takes no memory.
pub fn judge_place(
    state: &State,
    call: &CreateDocument,
    folder: Option<&Object>,
    kind: &TypeDef,
) -> Result<(), Cause>
    ensures { result ≡ judge_place state.now call.now (option_copied folder.entry) kind.now }
{
    if bars_filing(folder, kind) {
        return Err(Cause::NotFileable);
    }
    if has_other_state(kind, call) {
        return Err(Cause::VersionState);
    }
    if bars_kind(state, folder, &kind.id) {
        return Err(Cause::ChildType);
    }
    if is_uncontrollable(kind, call) {
        return Err(Cause::NotControllable);
    }
    Ok(())
}

/// Whether another child of the folder has the name. Takes no memory.
pub fn is_name_taken(state: &State, folder: Option<&Object>, name: &Text) -> bool
    ensures { result ≡ is_name_taken state.now (option_copied folder.entry) name.now }
{
    match folder {
        Some(folder) => state.is_taken(folder.id, Oid(state.next_number()), name),
        None => false,
    }
}

/// The entries that are asked for, the content and the name are right, and no other child of the folder has the name. Takes no memory.
#[tactic(auto, using(cm_types::proofs::Exits::fails_then))]
pub(crate) fn judge_name(
    state: &State,
    call: &CreateDocument,
    folder: Option<&Object>,
    kind: &TypeDef,
    name: &Text,
) -> Result<(), Cause>
    ensures { result ≡ judge_name state.now call.now (option_copied folder.entry) kind.now name.now }
{
    if has_unknown(call.remove.as_slice(), call.add.as_slice()) {
        return Err(Cause::Permission);
    }
    judge_content(kind, &call.stream, None)?;
    if !name_ok(name.bytes()) {
        return Err(Cause::BadName);
    }
    if is_name_taken(state, folder, name) {
        return Err(Cause::NameTaken);
    }
    Ok(())
}
