//! A working copy that is made of a document, as a draft.
ghost use Rattle.std.specs.Prelude.{◌≡◌, ◌+◌, ◌<◌, ◌^◌, [], IfOk, is_some, true};
ghost use Rattle.cm_base.specs.declared.log.ChangeKind.TheVariants.{Created};
ghost use Rattle.cmis_spec.specs.Repository.{new_number, series_at};
ghost use Rattle.cmis_spec.specs.Changes.{stepped, noted, edited_series};
ghost use Rattle.cmis_spec.specs.Documents.{with_member, with_contents};

use cm_base::content::Content;
use cm_base::items::Items;
use cm_base::log::ChangeKind;
use cm_base::number::Moment;
use cm_base::object::Object;
use cm_base::series::Series;
use cm_draft::draft::Draft;
use cm_state::state::State;
use std::alloc::{AllocError, Global};

/// The draft with a content, if there is one.
pub(crate) fn with_content(
    alloc: Global,
    draft: Draft,
    content: Option<Content>,
) -> Result<Draft, AllocError>
    ensures { IfOk result (λ d. d ≡ with_contents draft content) }
{
    match content {
        Some(content) => {
            let full = draft.with_content(alloc, content)?;
            Ok(full)
        }
        None => Ok(draft),
    }
}

/// The copy in its series, with its content, one step further, with its event.
pub(crate) fn copied_in(
    alloc: Global,
    state: &State,
    copy: Object,
    series: Series,
    content: Option<Content>,
    cost: u64,
    moment: Moment,
) -> Result<Draft, AllocError>
    requires number { copy.id ≡ new_number state.now }
    requires there { is_some (series_at state.now series.id) ≡ true }
    requires next { state.now.next + 1 < 2 ^ 64 }
    requires step { state.now.step + 1 < 2 ^ 64 }
    requires cost { state.now.cost + cost < 2 ^ 64 }
    ensures { IfOk result (λ d. d ≡
        noted (stepped (with_contents (edited_series (with_member state.now copy) series) content) cost)
        Created copy.id moment []) }
{
    let number = copy.id;
    let _step = state.step();
    let begun = Draft::of(alloc, state)?;
    let made = begun.with_member(alloc, copy)?;
    let out = made.edited_series(alloc, series)?;
    let full = with_content(alloc, out, content)?;
    let paid = full.stepped(cost);
    let noted = paid.noted(
        alloc,
        ChangeKind::Created,
        number,
        moment,
        Items::new(alloc),
    )?;
    Ok(noted)
}
