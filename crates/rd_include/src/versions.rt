//! The versions of a document (CMIS 1.1, section 2.2.7.6).
ghost use Rattle.std.specs.Prelude.{◌≡◌, map};
ghost use Rattle.cm_map.specs.Parts.{pointee};
ghost use Rattle.cm_base.specs.Judged.{Meets};
ghost use Rattle.rd_include.specs.Listed.{list_of};
ghost use Rattle.rd_include.specs.ShowVersions.{answer_show_versions, answer_show_versions_of, included_version};

use crate::listed::included_list;
use cm_base::cause::Cause;
use cm_base::fail::Fail;
use cm_base::object::Object;
use cm_base::text::Text;
use cm_include::included::View;
use cm_see::address::addressed;
use cm_state::state::State;
use cm_types::definition::BaseType;
use include_parts::readings::ShowVersions;
use include_parts::replies::IncludedObjectsReply;
use rd_lists::versions::versions_of;
use std::alloc::Global;

fn included_versions(
    alloc: Global,
    state: &State,
    user: &Text,
    q: &ShowVersions,
    versions: &[&Object],
) -> Result<IncludedObjectsReply, Fail>
    ensures { Meets (λ y. y) result (list_of (included_version state.now user.now q.now) (map pointee versions.now)) }
{
    let view = View {
        state,
        user,
        filter: &q.versions.filter,
        succinct: q.versions.succinct,
        includes: &q.includes,
    };
    included_list(alloc, view, versions)
}

fn versions_at(
    alloc: Global,
    state: &State,
    user: &Text,
    q: &ShowVersions,
    x: &Object,
) -> Result<IncludedObjectsReply, Fail>
    ensures { Meets (λ y. y) result (answer_show_versions_of state.now user.now q.now x.now) }
{
    if !state.is_a(BaseType::Document, x) {
        return Err(Fail::Refused(Cause::WrongKind));
    }
    let versions = versions_of(alloc, state, user, x)?;
    included_versions(alloc, state, user, q, &versions)
}

/// The working copy of the document's series, where the caller reads it, and then the versions from the latest to the first, with what
/// is asked for beside their properties. Any version names its series. What the caller doesn't read is not found; what is no document
/// is of the wrong kind; more than 5000 objects are too many.
pub fn show_versions(
    alloc: Global,
    state: &State,
    user: &Text,
    q: &ShowVersions,
) -> Result<IncludedObjectsReply, Fail>
    ensures { Meets (λ y. y) result (answer_show_versions state.now user.now q.now) }
{
    match addressed(state, user, &q.versions.place) {
        Some(x) => versions_at(alloc, state, user, q, x),
        None => Err(Fail::Refused(Cause::NotFound)),
    }
}
