//! The version series of the documents that go (CMIS 1.1, section 2.1.13).
ghost use Rattle.std.specs.Prelude.{◌≡◌, IfOk, fold};
ghost use Rattle.cmis_spec.specs.Removal.{among};
ghost use Rattle.cm_removal.specs.Steps.{with_left};

use crate::gone::Gone;
use crate::kept::{has_left, left_in};
use cm_base::number::Oid;
use cm_draft::draft::Draft;
use std::alloc::{AllocError, Global};

// The draft with what is left of the series of this number.
fn with_left(alloc: Global, draft: Draft, gone: &Gone, n: Oid) -> Result<Draft, AllocError>
    ensures { IfOk result (λ d. d ≡ with_left (among gone.now) draft n) }
{
    match draft.parts().series(n) {
        Some(series) => {
            if has_left(gone, series) {
                let left = left_in(alloc, gone, series)?;
                draft.edited_series(alloc, left)
            } else {
                draft.without_series(alloc, n)
            }
        }
        None => Ok(draft),
    }
}

/// The draft with what is left of the series of these numbers.
pub(crate) fn with_lefts(
    alloc: Global,
    draft: Draft,
    gone: &Gone,
    entries: &[Oid],
) -> Result<Draft, AllocError>
    ensures { IfOk result (λ d. d ≡ fold (with_left (among gone.now)) draft entries.now) }
{
    let mut left = draft;
    for n in entries {
        left = with_left(alloc, left, gone, *n)?;
    }
    Ok(left)
}
