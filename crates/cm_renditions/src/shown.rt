//! The renditions of an object that a filter keeps.
ghost use Rattle.std.specs.Prelude.{◌≡◌, ◌++◌, ◌∷◌, [], IfOk, OnOk, filter, map};
ghost use Rattle.cm_map.specs.Parts.{pointee};
ghost use Rattle.cm_renditions.specs.Shown.{is_kept, kept_renditions, shown_rendition, shown_renditions};

use cm_base::content::Rendition;
use cm_base::copies::Copies;
use cm_base::items::Items;
use cm_base::object::Object;
use cm_state::state::State;
use rendition_parts::filter::RenditionFilter;
use rendition_parts::replies::{ShownRendition, ShownRenditions};
use std::alloc::{AllocError, Global};

fn is_kept(which: &RenditionFilter, rendition: &Rendition) -> bool
    ensures { result ≡ is_kept which.now rendition.now }
{
    which.keeps(&rendition.kind, &rendition.media)
}

// Adds the rendition where the filter keeps it.
fn add_kept<'a>(
    all: &mut Vec<&'a Rendition>,
    which: &RenditionFilter,
    rendition: &'a Rendition,
) -> Result<(), AllocError>
    ensures { OnOk result (map pointee all.new.items ≡ map pointee all.old.items
        ++ filter (is_kept which.now) (rendition.now ∷ [])) }
{
    if is_kept(which, rendition) {
        all.push(rendition)?;
    }
    Ok(())
}

// Those that the filter keeps, in their order.
fn kept_of<'a>(
    alloc: Global,
    renditions: &[&'a Rendition],
    which: &RenditionFilter,
) -> Result<Vec<&'a Rendition>, AllocError>
    ensures { IfOk result (λ all. map pointee all.items
        ≡ filter (is_kept which.now) (map pointee renditions.now)) }
{
    let mut all = Vec::new(alloc);
    for rendition in renditions {
        add_kept(&mut all, which, *rendition)?;
    }
    Ok(all)
}

/// The renditions of the object that the filter keeps, in the order of their numbers. It looks at those of the object and at a bounded
/// number of others; no objects are gone through.
pub fn kept_renditions<'a>(
    alloc: Global,
    state: &'a State,
    which: &RenditionFilter,
    x: &Object,
) -> Result<Vec<&'a Rendition>, AllocError>
    ensures { IfOk result (λ all. map pointee all.items ≡ kept_renditions state.now which.now x.now) }
{
    let own = state.renditions_of(alloc, x.id)?;
    let all = kept_of(alloc, &own, which)?;
    Ok(all)
}

fn shown_rendition(alloc: Global, rendition: &Rendition) -> Result<ShownRendition, AllocError>
    ensures { IfOk result (λ s. s ≡ shown_rendition rendition.now) }
{
    let mime_type = rendition.media.copied(alloc)?;
    let kind = rendition.kind.copied(alloc)?;
    let title = Copies::copied(&rendition.title, alloc)?;
    Ok(ShownRendition {
        stream_id: rendition.id,
        mime_type,
        length: rendition.pieces.len(),
        kind,
        title,
    })
}

/// Renditions as replies show them, in the same order. Their bytes are not copied.
pub fn each_shown(alloc: Global, renditions: &[&Rendition]) -> Result<ShownRenditions, AllocError>
    ensures { IfOk result (λ all. all ≡ map shown_rendition (map pointee renditions.now)) }
{
    let mut all = Items::new(alloc);
    for rendition in renditions {
        all.push(shown_rendition(alloc, rendition)?)?;
    }
    Ok(all)
}

/// The renditions of the object that the filter keeps, as replies show them, in the order of their numbers.
pub fn shown_renditions(
    alloc: Global,
    state: &State,
    which: &RenditionFilter,
    x: &Object,
) -> Result<ShownRenditions, AllocError>
    ensures { IfOk result (λ all. all ≡ shown_renditions state.now which.now x.now) }
{
    let kept = kept_renditions(alloc, state, which, x)?;
    let all = each_shown(alloc, &kept)?;
    Ok(all)
}
