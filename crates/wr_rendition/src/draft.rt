//! A rendition more in a repository.
ghost use Rattle.std.specs.Prelude.{◌≡◌, ◌+◌, ◌<◌, ◌^◌, [], ◌∷◌, ◌++◌, All, IfOk};
ghost use Rattle.cmis_spec.specs.Well.{IsWellFormed};
ghost use Rattle.wr_rendition.specs.AddRendition.{added, with_rendition};

use cm_base::content::Rendition;
use cm_base::items::Items;
use cm_base::log::ChangeKind;
use cm_base::number::Moment;
use cm_draft::draft::Draft;
use cm_state::lists::Lists;
use cm_state::parts::Parts;
use cm_state::state::State;
use std::alloc::{AllocError, Global};

fn lists_with(alloc: Global, lists: Lists, rendition: Rendition) -> Result<Lists, AllocError>
    requires above { All (λ d. d.id.0 < rendition.id.0) lists.renditions }
    ensures { IfOk result (λ l. l ≡ record lists { renditions = lists.renditions ++ rendition ∷ [] }) }
{
    let renditions = lists.renditions.with_last(alloc, rendition)?;
    Ok(lists.with_renditions(renditions))
}

// A rendition more, whose number is above those of all others.
fn with_rendition(alloc: Global, draft: Draft, rendition: Rendition) -> Result<Draft, AllocError>
    requires room { draft.next + 1 < 2 ^ 64 }
    requires above { All (λ d. d.id.0 < rendition.id.0) draft.renditions }
    ensures { IfOk result (λ d. d ≡ with_rendition draft rendition) }
{
    let parts = draft.parts;
    let lists = lists_with(alloc, parts.lists, rendition)?;
    let next = parts.next + 1;
    Ok(Draft {
        parts: Parts {
            lists,
            next,
            ..parts
        },
    })
}

/// The state with a rendition more, one step further, with the event of its document.
pub(crate) fn added(
    alloc: Global,
    state: &State,
    rendition: Rendition,
    moment: Moment,
    cost: u64,
) -> Result<State, AllocError>
    requires room { state.now.next + 1 < 2 ^ 64 }
    requires above { All (λ d. d.id.0 < rendition.id.0) state.now.renditions }
    requires step { state.now.step + 1 < 2 ^ 64 }
    requires cost { state.now.cost + cost < 2 ^ 64 }
    requires well { IsWellFormed (added state.now rendition moment cost) }
    ensures { IfOk result (λ s. s ≡ added state.now rendition moment cost) }
{
    let document = rendition.of;
    let begun = Draft::of(alloc, state)?;
    let longer = with_rendition(alloc, begun, rendition)?;
    let paid = longer.stepped(cost);
    let noted = paid.noted(
        alloc,
        ChangeKind::Updated,
        document,
        moment,
        Items::new(alloc),
    )?;
    Ok(noted.seal())
}
