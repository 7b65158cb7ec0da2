//! The renditions of an object (CMIS 1.1, section 2.2.4.12).
ghost use Rattle.std.specs.Prelude.{◌≡◌, IfOk, map};
ghost use Rattle.cm_map.specs.Parts.{pointee};
ghost use Rattle.cm_base.specs.Judged.{Meets};
ghost use Rattle.cm_renditions.specs.Shown.{kept_renditions};
ghost use Rattle.rd_renditions.specs.ReadRenditions.{answer_renditions, renditions_reply};

use cm_base::cause::Cause;
use cm_base::content::Rendition;
use cm_base::fail::Fail;
use cm_base::object::Object;
use cm_base::text::Text;
use cm_renditions::shown::{each_shown, kept_renditions};
use cm_see::address::addressed;
use cm_state::state::State;
use rd_nav::page::page;
use rendition_parts::readings::ReadRenditions;
use rendition_parts::replies::RenditionsReply;
use std::alloc::{AllocError, Global};

// The renditions of the page are shown.
fn renditions_reply(
    alloc: Global,
    q: &ReadRenditions,
    kept: &[&Rendition],
) -> Result<RenditionsReply, AllocError>
    ensures { IfOk result (λ reply. reply ≡ renditions_reply q.now (map pointee kept.now)) }
{
    let renditions = each_shown(alloc, page(q.skip_count, q.max_items, kept))?;
    Ok(RenditionsReply { renditions })
}

fn renditions_of(
    alloc: Global,
    state: &State,
    q: &ReadRenditions,
    x: &Object,
) -> Result<RenditionsReply, AllocError>
    ensures { IfOk result (λ reply. reply ≡ renditions_reply q.now (kept_renditions state.now q.now.filter x.now)) }
{
    let kept = kept_renditions(alloc, state, &q.filter, x)?;
    let reply = renditions_reply(alloc, q, &kept)?;
    Ok(reply)
}

/// A page of the renditions of the object that the filter keeps, in the order of their numbers. Only a document has any. What the caller
/// doesn't read is not found.
pub fn renditions(
    alloc: Global,
    state: &State,
    user: &Text,
    q: &ReadRenditions,
) -> Result<RenditionsReply, Fail>
    ensures { Meets (λ y. y) result (answer_renditions state.now user.now q.now) }
{
    match addressed(state, user, &q.place) {
        Some(x) => {
            let reply = renditions_of(alloc, state, q, x)?;
            Ok(reply)
        }
        None => Err(Fail::Refused(Cause::NotFound)),
    }
}
