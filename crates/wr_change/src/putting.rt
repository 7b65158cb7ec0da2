//! A changed object in its place, and its series under its name, as a draft.
ghost use Rattle.std.specs.Prelude.{◌≡◌, [], IfOk, IfSome, is_some, true};
ghost use Rattle.cm_base.specs.declared.log.ChangeKind.TheVariants.{Updated};
ghost use Rattle.cmis_spec.specs.Repository.{object_at, series_at};
ghost use Rattle.cmis_spec.specs.Changes.{noted, edited};
ghost use Rattle.wr_change.specs.UpdateParts.{series_renamed, with_maybe};

use cm_base::items::Items;
use cm_base::log::ChangeKind;
use cm_base::object::Object;
use cm_base::series::Series;
use cm_base::text::Text;
use cm_draft::draft::Draft;
use cm_series::working::rename;
use cm_state::state::State;
use std::alloc::{AllocError, Global};
use wr_rules::versions::is_working_copy;

/// The series of a version, under the name. A working copy keeps its name for itself.
pub(crate) fn series_renamed(
    alloc: Global,
    state: &State,
    x: &Object,
    name: Text,
) -> Result<Option<Series>, AllocError>
    ensures { IfOk result (λ s. s ≡ series_renamed state.now x.now name) }
{
    if is_working_copy(state, x) {
        return Ok(None);
    }
    match state.series_of(x) {
        Some(series) => {
            let renamed = rename(alloc, series, name)?;
            Ok(Some(renamed))
        }
        None => Ok(None),
    }
}

// The draft with the series in place of the one that has its number, if there is one.
fn with_maybe(alloc: Global, draft: Draft, series: Option<Series>) -> Result<Draft, AllocError>
    requires there { IfSome series (λ s. is_some (series_at draft s.id) ≡ true) }
    ensures { IfOk result (λ d. d ≡ with_maybe draft series) }
{
    match series {
        Some(series) => {
            let put = draft.edited_series(alloc, series)?;
            Ok(put)
        }
        None => Ok(draft),
    }
}

/// The object in place of the one that has its number, after its series, with its event.
pub(crate) fn put_in(
    alloc: Global,
    state: &State,
    object: Object,
    series: Option<Series>,
) -> Result<Draft, AllocError>
    requires object { is_some (object_at state.now object.id) ≡ true }
    requires series { IfSome series (λ s. is_some (series_at state.now s.id) ≡ true) }
    ensures { IfOk result (λ d. d ≡
        noted (edited (with_maybe state.now series) object.id (λ _. object))
        Updated object.id object.modified_at []) }
{
    let number = object.id;
    let moment = object.modified_at;
    let begun = Draft::of(alloc, state)?;
    let named = with_maybe(alloc, begun, series)?;
    let put = named.edited(alloc, object)?;
    let noted = put.noted(
        alloc,
        ChangeKind::Updated,
        number,
        moment,
        Items::new(alloc),
    )?;
    Ok(noted)
}
