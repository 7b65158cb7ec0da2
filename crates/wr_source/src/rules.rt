//! The rules of createDocumentFromSource, part by part.
ghost use Rattle.std.specs.Prelude.{◌≡◌, ◌||◌, not};
ghost use Rattle.std.specs.Option.{option_copied};
ghost use Rattle.cm_base.specs.Judged.{Meets};
ghost use Rattle.cm_types.specs.declared.definition.BaseType.TheVariants as bases;
ghost use Rattle.cmis_spec.specs.Repository.{is_a};
ghost use Rattle.wr_rules.specs.Rules.{has_other_policy};
ghost use Rattle.wr_object.specs.CreateDocument.{is_no_folder};
ghost use Rattle.wr_source.specs.CreateDocumentFromSource.{judge_kinds, judge_type, judge_name};

use crate::template::Template;
use call_parts::versions::CreateDocument;
use cm_base::cause::Cause;
use cm_base::fail::Fail;
use cm_base::name::name_ok;
use cm_base::object::Object;
use cm_base::text::Text;
use cm_state::state::State;
use cm_types::definition::{BaseType, TypeDef};
use std::alloc::Global;
use wr_object::asked::has_unknown;
use wr_object::document_rules::{is_name_taken, is_no_folder, is_wrong_type, may_not_make};
use wr_rules::content::judge_content;
use wr_rules::policies::has_other_policy;

// The folder is none, or the source is no document.
fn names_other(state: &State, x: &Object, folder: Option<&Object>) -> bool
    ensures { result
        ≡ (is_no_folder state.now (option_copied folder.entry) || not (is_a state.now bases.Document x.now)) }
{
    is_no_folder(state, folder) || !state.is_a(BaseType::Document, x)
}

fn is_wrong_kind(
    state: &State,
    user: &Text,
    policies: &[Text],
    x: &Object,
    folder: Option<&Object>,
) -> bool
    ensures { result ≡ (is_no_folder state.now (option_copied folder.entry)
        || not (is_a state.now bases.Document x.now)
        || has_other_policy state.now user.now policies.now) }
{
    names_other(state, x, folder) || has_other_policy(state, user, policies)
}

/// The caller may make a document there, and what is named is of the kinds that it must be. Takes no memory.
pub(crate) fn judge_kinds(
    state: &State,
    user: &Text,
    call: &CreateDocument,
    x: &Object,
    folder: Option<&Object>,
) -> Result<(), Cause>
    ensures { result ≡ judge_kinds state.now user.now call.now x.now (option_copied folder.entry) }
{
    if may_not_make(state, user, folder) {
        return Err(Cause::Denied);
    }
    if is_wrong_kind(state, user, call.policies.as_slice(), x, folder) {
        return Err(Cause::WrongKind);
    }
    Ok(())
}

/// A document of the types may be made.
pub(crate) fn judge_type(
    alloc: Global,
    state: &State,
    t: &Template<'_>,
    kind: &TypeDef,
) -> Result<(), Fail>
    ensures { Meets (λ x. x) result (judge_type state.now t.now kind.now) }
{
    let is_wrong = is_wrong_type(alloc, state.types(), kind, t.secondary.as_slice())?;
    if is_wrong {
        return Err(Fail::Refused(Cause::TypeKind));
    }
    if !kind.creatable {
        return Err(Fail::Refused(Cause::NotCreatable));
    }
    Ok(())
}

/// The entries that are asked for, the content and the name are right, and no other child of the folder has the name. Takes no memory.
#[tactic(auto, using(cm_types::proofs::Exits::fails_then))]
pub(crate) fn judge_name(
    state: &State,
    call: &CreateDocument,
    t: &Template<'_>,
    folder: Option<&Object>,
    kind: &TypeDef,
) -> Result<(), Cause>
    ensures { result ≡ judge_name state.now call.now t.now (option_copied folder.entry) kind.now }
{
    if has_unknown(call.remove.as_slice(), call.add.as_slice()) {
        return Err(Cause::Permission);
    }
    judge_content(kind, &t.stream, None)?;
    if !name_ok(t.name.bytes()) {
        return Err(Cause::BadName);
    }
    if is_name_taken(state, folder, &t.name) {
        return Err(Cause::NameTaken);
    }
    Ok(())
}
