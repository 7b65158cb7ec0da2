//! A working copy that becomes the latest version of its series, as a draft.
ghost use Rattle.std.specs.Prelude.{◌≡◌, ◌+◌, ◌<◌, ◌^◌, [], IfOk, is_some, true};
ghost use Rattle.cm_base.specs.declared.log.ChangeKind.TheVariants.{Updated};
ghost use Rattle.cmis_spec.specs.Repository.{object_at, series_at};
ghost use Rattle.cmis_spec.specs.Changes.{stepped, noted, edited, edited_series};
ghost use Rattle.cmis_spec.specs.Documents.{with_contents};

use crate::copying::with_content;
use cm_base::content::Content;
use cm_base::items::Items;
use cm_base::log::ChangeKind;
use cm_base::object::Object;
use cm_base::series::Series;
use cm_draft::draft::Draft;
use cm_state::state::State;
use std::alloc::{AllocError, Global};

/// The version in place of the working copy that has its number, in its series, with a content that is given, one step further, with its
/// event.
pub(crate) fn joined_in(
    alloc: Global,
    state: &State,
    version: Object,
    series: Series,
    content: Option<Content>,
    cost: u64,
) -> Result<Draft, AllocError>
    requires copy { is_some (object_at state.now version.id) ≡ true }
    requires there { is_some (series_at state.now series.id) ≡ true }
    requires step { state.now.step + 1 < 2 ^ 64 }
    requires cost { state.now.cost + cost < 2 ^ 64 }
    ensures { IfOk result (λ d. d ≡
        noted (stepped (with_contents
        (edited_series (edited state.now version.id (λ _. version)) series) content) cost)
        Updated version.id version.modified_at []) }
{
    let number = version.id;
    let moment = version.modified_at;
    let begun = Draft::of(alloc, state)?;
    let put = begun.edited(alloc, version)?;
    let joined = put.edited_series(alloc, series)?;
    let full = with_content(alloc, joined, content)?;
    let paid = full.stepped(cost);
    let noted = paid.noted(
        alloc,
        ChangeKind::Updated,
        number,
        moment,
        Items::new(alloc),
    )?;
    Ok(noted)
}
