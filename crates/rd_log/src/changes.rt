//! The change log, from a token on.
ghost use Rattle.std.specs.Prelude.{◌≡◌, ◌-◌, ◌<◌, ◌≤◌, ◌++◌, List, [], ◌∷◌, length, IfOk};
ghost use Rattle.cm_base.specs.Judged.{Meets};
ghost use Rattle.cmis_spec.specs.Seen.{SeenEvent, place_among, seen_events};
ghost use Rattle.rd_nav.specs.ReadChildren.{page_size};
ghost use Rattle.rd_log.specs.EventsIn.{events_in, seen_event};
ghost use Rattle.rd_log.specs.ReadChanges.{answer_changes, changes_reply, events_from};

use cm_base::fail::Fail;
use cm_base::items::Items;
use cm_base::log::Change;
use cm_base::text::Text;
use cm_state::state::State;
use log_parts::readings::ReadChanges;
use log_parts::replies::{ChangesReply, ShownEvent};
use rd_types::events::{is_visible, place_among};
use std::alloc::{AllocError, Global};

#[tactic(auto, unfolding(rd_nav::specs::ReadChildren::most_items))]
fn page_size(asked: u64) -> u64
    ensures { result ≡ page_size asked }
{
    asked.min(1000)
}

fn without_events(alloc: Global, q: &ReadChanges) -> ChangesReply
    ensures { result ≡ changes_reply q.now [] }
{
    ChangesReply {
        events: Items::new(alloc),
        has_more_items: false,
        num_items: 0,
        token: q.token,
        succinct: q.succinct,
    }
}

// One event more: it is counted, and shown where the page has room.
fn with_event(
    reply: ChangesReply,
    q: &ReadChanges,
    number: u64,
    event: &Change,
) -> Result<ChangesReply, AllocError>
    requires few { reply.num_items < number }
    ensures { IfOk result (λ longer. (es : List SeenEvent) → reply ≡ changes_reply q.now es
        → longer ≡ changes_reply q.now (es ++ seen_event number event.now ∷ [])) }
{
    let ChangesReply {
        mut events,
        has_more_items: _more,
        num_items,
        token,
        succinct,
    } = reply;
    if page_size(q.max_items) <= events.len() as u64 {
        return Ok(ChangesReply {
            events,
            has_more_items: true,
            num_items: num_items + 1,
            token,
            succinct,
        });
    }
    events.push(ShownEvent {
        object: event.object,
        kind: event.kind,
        moment: event.moment,
    })?;
    Ok(ChangesReply {
        events,
        has_more_items: false,
        num_items: num_items + 1,
        token: number,
        succinct,
    })
}

// The reply with the event of a number, where the caller sees it.
fn with_number(
    state: &State,
    user: &Text,
    place: usize,
    q: &ReadChanges,
    reply: ChangesReply,
    number: u64,
) -> Result<ChangesReply, AllocError>
    requires place { place ≡ place_among state.now.users user.now }
    requires within { 0 < number × number ≤ length state.now.log }
    requires from { q.now.token ≤ number }
    requires before { reply ≡ changes_reply q.now (events_in state.now user.now q.now.token (number - 1)) }
    ensures { IfOk result (λ longer. longer ≡ changes_reply q.now (events_in state.now user.now q.now.token number)) }
{
    match state.log().get(number - 1) {
        Some(event) => {
            if is_visible(state, user, place, event) {
                with_event(reply, q, number, event)
            } else {
                Ok(reply)
            }
        }
        None => Ok(reply),
    }
}

fn gathered(
    alloc: Global,
    state: &State,
    user: &Text,
    place: usize,
    q: &ReadChanges,
) -> Result<ChangesReply, AllocError>
    requires place { place ≡ place_among state.now.users user.now }
    ensures { IfOk result (λ reply. reply
        ≡ changes_reply q.now (events_from q.now.token (seen_events state.now user.now 1 state.now.log))) }
{
    let count = state.events();
    let first = q.token.saturating_sub(1).min(count);
    let mut reply = without_events(alloc, q);
    for before in first..count {
        reply = with_number(state, user, place, q, reply, before + 1)?;
    }
    Ok(reply)
}

/// A page of the events that the caller sees, from the one that has the token on, and how many there are in all. What is outside the
/// page is counted and not shown. Of the log before the token nothing is looked at but the deletions of what later events name.
pub fn changes(
    alloc: Global,
    state: &State,
    user: &Text,
    q: &ReadChanges,
) -> Result<ChangesReply, Fail>
    ensures { Meets (λ x. x) result (answer_changes state.now user.now q.now) }
{
    let place = place_among(state.users().as_slice(), user);
    let reply = gathered(alloc, state, user, place, q)?;
    Ok(reply)
}
