//! What the calls on filing share.
ghost use Rattle.std.specs.Prelude.{◌≡◌, ◌+◌, ◌<◌, ◌^◌, ◌||◌, ◌&&◌, IfOk, false, unwrap_or, option_map};
ghost use Rattle.cmis_spec.specs.Repository.{type_of};
ghost use Rattle.wr_filing.specs.Filing.{is_filed_kind, may_be_filed, lacks_at, changed_by};
ghost use Rattle.wr_filing.specs.AddToFolder.{lacks_either};

use cm_acl::level::is_at_least;
use cm_base::access::Level;
use cm_base::items::Items;
use cm_base::log::ChangeKind;
use cm_base::number::{Moment, Oid};
use cm_base::object::Object;
use cm_base::text::Text;
use cm_draft::draft::Draft;
use cm_see::level::{lacks, level_by_list};
use cm_state::state::State;
use cm_types::definition::BaseType;
use std::alloc::{AllocError, Global};
use wr_rules::versions::is_working_copy;

fn is_filed_kind(state: &State, x: &Object) -> bool
    ensures { result ≡ is_filed_kind state.now x.now }
{
    state.is_a(BaseType::Folder, x)
        || state.is_a(BaseType::Document, x)
        || state.is_a(BaseType::Item, x)
}

fn is_fileable(state: &State, x: &Object) -> bool
    ensures { result ≡ unwrap_or (option_map (λ t. t.fileable) (type_of state.now x.now)) false }
{
    match state.type_named(&x.kind) {
        Some(def) => def.fileable,
        None => false,
    }
}

/// The object is a folder, a document or an item of a type that is fileable, and no working copy. Takes no memory.
pub(crate) fn may_be_filed(state: &State, x: &Object) -> bool
    ensures { result ≡ may_be_filed state.now x.now }
{
    is_filed_kind(state, x) && is_fileable(state, x) && !is_working_copy(state, x)
}

/// By the access list of a folder, an item or a series, the caller has less than this level there. Takes no memory.
pub fn lacks_at(state: &State, user: &Text, need: Level, n: Oid) -> bool
    ensures { result ≡ lacks_at state.now user.now need n }
{
    !is_at_least(need, level_by_list(state, user, n))
}

/// The caller may not write in the object or in the folder. Takes no memory.
pub(crate) fn lacks_either(state: &State, user: &Text, x: &Object, folder: &Object) -> bool
    ensures { result ≡ lacks_either state.now user.now x.now folder.now }
{
    lacks(state, user, Level::Write, x) || lacks(state, user, Level::Write, folder)
}

/// The draft one step further, with the event that the object of this number was changed.
pub(crate) fn changed_by(
    alloc: Global,
    draft: Draft,
    number: Oid,
    moment: Moment,
    cost: u64,
) -> Result<Draft, AllocError>
    requires step { draft.step + 1 < 2 ^ 64 }
    requires cost { draft.cost + cost < 2 ^ 64 }
    ensures { IfOk result (λ d. d ≡ changed_by draft number moment cost) }
{
    let paid = draft.stepped(cost);
    let noted = paid.noted(
        alloc,
        ChangeKind::Updated,
        number,
        moment,
        Items::new(alloc),
    )?;
    Ok(noted)
}
