//! Whether nothing is asked for beside the properties. Nothing here takes memory.
ghost use Rattle.std.specs.Prelude.{◌≡◌};
ghost use Rattle.include_text.specs.Texts.{are_bare_children, is_bare, is_bare_object, is_this, no_order, no_relationships, no_renditions};

use include_parts::readings::{
    IncludeRelationships, Includes, ReturnVersion, ShowChildren, ShowObject,
};
use order_parts::readings::SortSpecification;
use rendition_parts::filter::RenditionFilter;

fn no_relationships(asked: IncludeRelationships) -> bool
    ensures { result ≡ no_relationships asked }
{
    match asked {
        IncludeRelationships::Nothing => true,
        IncludeRelationships::Source => false,
        IncludeRelationships::Target => false,
        IncludeRelationships::Both => false,
    }
}

fn no_renditions(filter: &RenditionFilter) -> bool
    ensures { result ≡ no_renditions filter.now }
{
    match filter {
        RenditionFilter::None => true,
        RenditionFilter::All => false,
        RenditionFilter::Listed(_) => false,
    }
}

/// Whether properties alone are shown.
pub(crate) fn is_bare(includes: &Includes) -> bool
    ensures { result ≡ is_bare includes.now }
{
    !includes.actions
        && no_relationships(includes.relationships)
        && no_renditions(&includes.renditions)
        && !includes.policy_ids
        && !includes.acl
}

fn is_this(version: ReturnVersion) -> bool
    ensures { result ≡ is_this version }
{
    match version {
        ReturnVersion::This => true,
        ReturnVersion::Latest => false,
        ReturnVersion::LatestMajor => false,
    }
}

/// Whether the addressed object itself is shown, with its properties alone.
pub(crate) fn is_bare_object(q: &ShowObject) -> bool
    ensures { result ≡ is_bare_object q.now }
{
    is_this(q.version) && is_bare(&q.includes)
}

// Whether no order is asked for.
fn no_order(order: &[SortSpecification]) -> bool
    ensures { result ≡ no_order order.now }
{
    match order {
        [] => true,
        [_, ..] => false,
    }
}

/// Whether children are shown with their properties alone, without their names, and in the order of their numbers.
pub(crate) fn are_bare_children(q: &ShowChildren) -> bool
    ensures { result ≡ are_bare_children q.now }
{
    no_order(q.order.as_slice()) && !q.segments && is_bare(&q.includes)
}
