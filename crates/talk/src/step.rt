//! One step of a session: reads what comes next, and sends what is due for it.
ghost use Rattle.std.specs.Prelude.{◌≡◌, ◌<◌, ◌≤◌, IfSome};
ghost use Rattle.http_reply.specs.Replies.{interim_text};
ghost use Rattle.talk.specs.Served.{wire_of};
ghost use Rattle.talk.specs.Requests.{is_last, most_requests};
ghost use Rattle.talk.specs.Steps.{AnswersRequest, SendsContinue, Steps};
ghost use Rattle.talk.specs.Talked.{IfUnkept};

use crate::end::End;
use crate::link::{read_next, refuse, send_continue, send_reply, starve};
use crate::reply::reply_to;
use crate::served::Served;
use crate::turn::Unanswered;
use cm_base::user::Users;
use desk_model::Desk;
use http_wire::{Buffer, Head, Incoming, Request, WireStop};
use outside::{Gate, Link};
use std::alloc::Global;

/// The most requests of a session.
const MOST_REQUESTS: u64 = 1000;

// Whether the reply to a head is the last of its session, after so many others.
fn is_last<K: Served>(count: u64, head: &Head) -> bool
    ensures { result ≡ is_last (wire_of K.user K.least K.closes) count head.now }
{
    count == MOST_REQUESTS - 1 || K::closes(head)
}

// Answers a whole request.
fn answer<D: Desk, L: Link, G: Gate>(
    alloc: Global,
    leave: &mut D::Leave,
    desk: &mut D,
    pass: &mut D::Pass,
    users: &Users,
    link: &mut L,
    gate: &G,
    calls: &mut u64,
    count: &mut u64,
    request: &Request,
) -> Option<End>
where
    D::Kind: Served,
    requires is_of { D.is_of desk.old pass.old }
    requires few { count.old < most_requests }
    ensures is_of { D.is_of desk.new pass.new }
    ensures aside { D.aside desk.new ≡ D.aside desk.old }
    ensures place { D.place pass.new ≡ D.place pass.old }
    ensures answers { AnswersRequest (record {
      next = D.Kind.next;
      answer = D.Kind.answer;
      number = D.Kind.number;
      call = D.Kind.call;
      wire = wire_of D.Kind.user D.Kind.least D.Kind.closes;
    }) users.now request.now
        (record {
          known = D.known pass.old;
          sure = D.sure pass.old;
          words = D.words desk.old;
          count = count.old;
        }) (L.Sink.told link.old)
        (record { known = D.known pass.new; sure = D.sure pass.new; words = D.words desk.new; count = count.new })
        (L.Sink.told link.new) result }
    ensures later { D.sure pass.old ≤ D.sure pass.new }
    ensures failed { IfSome result (λ end. IfUnkept end (D.failed pass.new)) }
    ensures source { L.Source.told link.new ≡ L.Source.told link.old }
    ensures stands_for { L.stands_for link.new ≡ L.stands_for link.old }
{
    let last = is_last::<D::Kind>(*count, request.head());
    let shown = match reply_to(alloc, leave, desk, pass, users, gate, calls, request) {
        Ok(shown) => shown,
        Err(Unanswered::Memory) => {
            starve(link);
            return Some(End::Starved);
        }
        Err(Unanswered::Unkept) => return Some(End::Unkept),
    };
    match send_reply(link, &shown, last) {
        Ok(()) if last => Some(End::Ended),
        Ok(()) => {
            *count += 1;
            None
        }
        Err(_) => Some(End::WriteFault),
    }
}

// Sends the interim reply. None: the session goes on.
fn go_on<L: Link>(link: &mut L) -> Option<End>
    ensures goes { SendsContinue interim_text (L.Sink.told link.old) (L.Sink.told link.new) result }
    ensures source { L.Source.told link.new ≡ L.Source.told link.old }
    ensures stands_for { L.stands_for link.new ≡ L.stands_for link.old }
{
    match send_continue(link) {
        Ok(()) => None,
        Err(_) => Some(End::WriteFault),
    }
}

/// Reads what comes next, and sends what is due for it. None: the session goes on.
pub fn step<D: Desk, L: Link, G: Gate>(
    alloc: Global,
    leave: &mut D::Leave,
    desk: &mut D,
    pass: &mut D::Pass,
    users: &Users,
    link: &mut L,
    gate: &G,
    buffer: &mut Buffer,
    calls: &mut u64,
    count: &mut u64,
) -> Option<End>
where
    D::Kind: Served,
    requires is_of { D.is_of desk.old pass.old }
    requires few { count.old < most_requests }
    ensures is_of { D.is_of desk.new pass.new }
    ensures aside { D.aside desk.new ≡ D.aside desk.old }
    ensures place { D.place pass.new ≡ D.place pass.old }
    ensures steps { Steps (record {
      next = D.Kind.next;
      answer = D.Kind.answer;
      number = D.Kind.number;
      call = D.Kind.call;
      wire = wire_of D.Kind.user D.Kind.least D.Kind.closes;
    }) users.now
        buffer.old (L.Source.told link.old) (record {
          known = D.known pass.old;
          sure = D.sure pass.old;
          words = D.words desk.old;
          count = count.old;
        }) (L.Sink.told link.old)
        buffer.new (L.Source.told link.new) (record {
          known = D.known pass.new;
          sure = D.sure pass.new;
          words = D.words desk.new;
          count = count.new;
        }) (L.Sink.told link.new) result }
    ensures failed { IfSome result (λ end. IfUnkept end (D.failed pass.new)) }
    ensures stands_for { L.stands_for link.new ≡ L.stands_for link.old }
{
    match read_next(alloc, link, buffer) {
        Ok(Incoming::Head(_)) => go_on(link),
        Ok(Incoming::Body(request)) => answer(
            alloc, leave, desk, pass, users, link, gate, calls, count, &request,
        ),
        Ok(Incoming::Over) => Some(End::Ended),
        Err(WireStop::Bad(fault)) => Some(refuse::<D::Kind, L>(alloc, link, fault)),
        Err(WireStop::ReadFault) => Some(End::ReadFault),
        Err(WireStop::Memory) => {
            starve(link);
            Some(End::Starved)
        }
    }
}
