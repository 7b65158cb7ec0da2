//! Objects that go, with their contents, their renditions and the policies on them.
ghost use Rattle.std.specs.Prelude.{◌≡◌, not, IfOk, filter};
ghost use Rattle.cmis_spec.specs.Removal.{among};

use cm_base::number::Oid;
use cm_draft::draft::Draft;
use std::alloc::{AllocError, Global};

// Without the objects of these numbers.
pub(crate) fn without_objects(
    alloc: Global,
    draft: Draft,
    gone: &[Oid],
) -> Result<Draft, AllocError>
    ensures { IfOk result (λ d. d ≡ record draft { objects = filter (λ x. not (among gone.now x.id)) draft.objects }) }
{
    let mut left = draft;
    for n in gone {
        left = left.without_object(alloc, *n)?;
    }
    Ok(left)
}

// Without their contents.
pub(crate) fn without_contents(
    alloc: Global,
    draft: Draft,
    gone: &[Oid],
) -> Result<Draft, AllocError>
    ensures { IfOk result (λ d. d ≡ record draft {
      contents = filter
          (λ c. not (among gone.now c.of)) draft.contents;
    }) }
{
    let mut left = draft;
    for n in gone {
        left = left.without_content(alloc, *n)?;
    }
    Ok(left)
}

// Without the policies on them.
pub(crate) fn without_policies(
    alloc: Global,
    draft: Draft,
    gone: &[Oid],
) -> Result<Draft, AllocError>
    ensures { IfOk result (λ d. d
        ≡ record draft { applied = filter (λ a. not (among gone.now a.object)) draft.applied }) }
{
    let mut left = draft;
    for n in gone {
        left = left.without_policies(alloc, *n)?;
    }
    Ok(left)
}

// Without their renditions.
pub(crate) fn without_renditions(
    alloc: Global,
    draft: Draft,
    gone: &[Oid],
) -> Result<Draft, AllocError>
    ensures { IfOk result (λ d. d
        ≡ record draft { renditions = filter (λ d. not (among gone.now d.of)) draft.renditions }) }
{
    let mut left = draft;
    for n in gone {
        left = left.without_renditions(alloc, *n)?;
    }
    Ok(left)
}
