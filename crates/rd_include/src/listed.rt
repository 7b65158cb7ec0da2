//! Lists and pages of objects, with what is asked for beside their properties.
ghost use Rattle.std.specs.Prelude.{◌≡◌, IfOk, map};
ghost use Rattle.cm_map.specs.Parts.{pointee};
ghost use Rattle.cm_base.specs.Judged.{Meets};
ghost use Rattle.cm_include.specs.Included.{included_in};
ghost use Rattle.rd_include.specs.Listed.{list_of, page_of};

use cm_base::cause::Cause;
use cm_base::fail::Fail;
use cm_base::object::Object;
use cm_include::included::{View, included_objects};
use include_parts::replies::{IncludedObjectsReply, IncludedPageReply};
use rd_lists::listed::is_too_long;
use rd_nav::page::{has_more, page};
use std::alloc::{AllocError, Global};

/// The objects as they are shown in a view, in their order; or how many they are, where they are more than 5000.
pub fn included_list(
    alloc: Global,
    view: View<'_>,
    objects: &[&Object],
) -> Result<IncludedObjectsReply, Fail>
    ensures { Meets (λ y. y) result (list_of (included_in view.entry) (map pointee objects.now)) }
{
    let count = objects.len() as u64;
    if is_too_long(count) {
        return Err(Fail::Refused(Cause::TooMany(count)));
    }
    let objects = included_objects(alloc, view, objects)?;
    Ok(IncludedObjectsReply { objects })
}

/// The page of at most so many objects behind those that are passed over, as they are shown in a view. All are counted, and those of the
/// page alone are shown.
pub fn included_page(
    alloc: Global,
    view: View<'_>,
    skip_count: u64,
    max_items: u64,
    objects: &[&Object],
) -> Result<IncludedPageReply, AllocError>
    ensures { IfOk result (λ reply. reply ≡ page_of (included_in view.entry) skip_count max_items
        (map pointee objects.now)) }
{
    let shown = page(skip_count, max_items, objects);
    let all = included_objects(alloc, view, shown)?;
    Ok(IncludedPageReply {
        objects: all,
        has_more_items: has_more(skip_count, max_items, objects),
        num_items: objects.len() as u64,
    })
}
