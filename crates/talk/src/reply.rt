//! The reply to one request.
ghost use Rattle.std.specs.Prelude.{◌≡◌, ◌≤◌, Bool, List, IfOk, IfErr, OnOk, OnErr, bytes_eq, codes, length};
ghost use Rattle.cm_base.specs.declared.user.User.{User};
ghost use Rattle.http_grammar.specs.Request.{Head as HeadParts};
ghost use Rattle.http_reply.specs.Replies.{reply_text};
ghost use Rattle.talk.specs.declared.turn.Unanswered.TheVariants.{Memory};
ghost use Rattle.talk.specs.Served.{Kind, wire_of, ask_of, writes, reads};
ghost use Rattle.talk.specs.Session.{plain_shown, is_head_cause};
ghost use Rattle.talk.specs.Settled.{IsWithin};
ghost use Rattle.talk.specs.Turned.{Turned, TurnUnkept, Stays, IfStarved, IfUnkept};

use crate::served::Served;
use crate::turn::{Unanswered, read_turn, shown_of, write_turn};
use cm_base::asked::Asked;
use cm_base::cause::Cause;
use cm_base::fail::Fail;
use cm_base::shown::Shown;
use cm_base::text::Text;
use cm_base::user::Users;
use desk_model::{Desk, Machine};
use http_reply::{cause_shown, without_body};
use http_wire::{Head, Request};
use outside::Gate;
use std::alloc::{AllocError, Global};

// Whether it is a cause whose reply to HEAD has no body.
fn is_for_head(cause: &Cause) -> bool
    ensures { result ≡ is_head_cause cause.now }
{
    matches!(cause, Cause::BadMethod | Cause::WrongSecret)
}

// Whether the method is HEAD.
fn is_head(head: &Head) -> bool
    ensures { result ≡ bytes_eq head.now.method (codes "HEAD") }
{
    head.method() == b"HEAD".as_slice()
}

// What is shown of a cause that comes from no version.
fn plain<K: Served>(alloc: Global, head: &Head, cause: &Cause) -> Result<Shown, Unanswered>
    ensures shown { IfOk result (λ shown. shown ≡ plain_shown (wire_of K.user K.least K.closes) head.now cause.now) }
    ensures memory { IfErr result (λ e. e ≡ Memory) }
{
    let Ok(shown) = cause_shown(alloc, cause, None) else {
        return Err(Unanswered::Memory);
    };
    if is_head(head) && is_for_head(cause) {
        Ok(without_body(alloc, shown))
    } else {
        Ok(shown)
    }
}

// The reply to a write. Once the desk has accepted it, no memory is taken.
fn write_reply_of<D: Desk>(
    alloc: Global,
    leave: &mut D::Leave,
    desk: &mut D,
    pass: &mut D::Pass,
    user: &Text,
    least: u64,
    call: <D::Kind as Machine>::Call,
) -> Result<Shown, Unanswered>
where
    D::Kind: Served,
    requires { D.is_of desk.old pass.old }
    ensures is_of { D.is_of desk.new pass.new }
    ensures aside { D.aside desk.new ≡ D.aside desk.old }
    ensures place { D.place pass.new ≡ D.place pass.old }
    ensures turned { IfOk result (λ shown. (users : List User) (head : HeadParts) (last : Bool)
        → Turned (record {
          next = D.Kind.next;
          answer = D.Kind.answer;
          number = D.Kind.number;
          call = D.Kind.call;
          wire = wire_of D.Kind.user D.Kind.least D.Kind.closes;
        }) users head last (writes user.now least call)
        (D.known pass.old) (D.words desk.old) (reply_text shown last) (D.known pass.new) (D.words desk.new)) }
    ensures settled { OnOk result (length (D.known pass.new).seen ≤ D.sure pass.new) }
    ensures later { D.sure pass.old ≤ D.sure pass.new }
    ensures starved { IfStarved result
        (Stays (D.known pass.old) (D.known pass.new) (D.words desk.old) (D.words desk.new)) }
    ensures unkept { IfUnkept result ((users : List User) (head : HeadParts) (last : Bool)
        → TurnUnkept (record {
          next = D.Kind.next;
          answer = D.Kind.answer;
          number = D.Kind.number;
          call = D.Kind.call;
          wire = wire_of D.Kind.user D.Kind.least D.Kind.closes;
        }) users head last (writes user.now least call)
        (D.known pass.old) (D.words desk.old) (D.known pass.new) (D.words desk.new)) }
    ensures failed { IfUnkept result (D.failed pass.new) }
{
    match write_turn(alloc, leave, desk, pass, user, least, call) {
        Ok(verdict) => match shown_of(alloc, verdict) {
            Ok(shown) => Ok(shown),
            Err(_) => Err(Unanswered::Memory),
        },
        Err(unanswered) => Err(unanswered),
    }
}

// The reply to a question.
fn read_reply_of<D: Desk>(
    alloc: Global,
    leave: &mut D::Leave,
    desk: &mut D,
    pass: &mut D::Pass,
    user: &Text,
    least: u64,
    question: &<D::Kind as Machine>::Question,
) -> Result<Shown, AllocError>
where
    D::Kind: Served,
    requires { D.is_of desk.old pass.old }
    ensures is_of { D.is_of desk.new pass.new }
    ensures aside { D.aside desk.new ≡ D.aside desk.old }
    ensures place { D.place pass.new ≡ D.place pass.old }
    ensures turned { IfOk result (λ shown. (users : List User) (head : HeadParts) (last : Bool)
        → Turned (record {
          next = D.Kind.next;
          answer = D.Kind.answer;
          number = D.Kind.number;
          call = D.Kind.call;
          wire = wire_of D.Kind.user D.Kind.least D.Kind.closes;
        }) users head last (reads user.now least question.now)
        (D.known pass.old) (D.words desk.old) (reply_text shown last) (D.known pass.new) (D.words desk.new)) }
    ensures settled { OnOk result (length (D.known pass.new).seen ≤ D.sure pass.new) }
    ensures later { D.sure pass.old ≤ D.sure pass.new }
    ensures starved { OnErr result (Stays (D.known pass.old) (D.known pass.new) (D.words desk.old) (D.words desk.new)) }
{
    match read_turn(alloc, leave, desk, pass, user, least, question) {
        Ok(verdict) => match shown_of(alloc, verdict) {
            Ok(shown) => Ok(shown),
            Err(_) => Err(AllocError),
        },
        Err(_) => Err(AllocError),
    }
}

/// The reply to a request, which shows only what is settled. Before a call of the repository the session passes the gate, with its number and the
/// count of its earlier calls.
pub fn reply_to<D: Desk, G: Gate>(
    alloc: Global,
    leave: &mut D::Leave,
    desk: &mut D,
    pass: &mut D::Pass,
    users: &Users,
    gate: &G,
    calls: &mut u64,
    request: &Request,
) -> Result<Shown, Unanswered>
where
    D::Kind: Served,
    requires { D.is_of desk.old pass.old }
    ensures is_of { D.is_of desk.new pass.new }
    ensures aside { D.aside desk.new ≡ D.aside desk.old }
    ensures place { D.place pass.new ≡ D.place pass.old }
    ensures turned { IfOk result (λ shown. (last : Bool)
        → Turned (record {
          next = D.Kind.next;
          answer = D.Kind.answer;
          number = D.Kind.number;
          call = D.Kind.call;
          wire = wire_of D.Kind.user D.Kind.least D.Kind.closes;
        }) users.now request.now.head last
        (ask_of (record {
          next = D.Kind.next;
          answer = D.Kind.answer;
          number = D.Kind.number;
          call = D.Kind.call;
          wire = wire_of D.Kind.user D.Kind.least D.Kind.closes;
        }) users.now request.now) (D.known pass.old)
        (D.words desk.old) (reply_text shown last) (D.known pass.new) (D.words desk.new)) }
    ensures settled { OnOk result (IsWithin (D.sure pass.new)
        (ask_of (record {
          next = D.Kind.next;
          answer = D.Kind.answer;
          number = D.Kind.number;
          call = D.Kind.call;
          wire = wire_of D.Kind.user D.Kind.least D.Kind.closes;
        }) users.now request.now)
        (length (D.known pass.new).seen)) }
    ensures later { D.sure pass.old ≤ D.sure pass.new }
    ensures starved { IfStarved result
        (Stays (D.known pass.old) (D.known pass.new) (D.words desk.old) (D.words desk.new)) }
    ensures unkept { IfUnkept result ((last : Bool) → TurnUnkept (record {
      next = D.Kind.next;
      answer = D.Kind.answer;
      number = D.Kind.number;
      call = D.Kind.call;
      wire = wire_of D.Kind.user D.Kind.least D.Kind.closes;
    }) users.now request.now.head last
        (ask_of (record {
          next = D.Kind.next;
          answer = D.Kind.answer;
          number = D.Kind.number;
          call = D.Kind.call;
          wire = wire_of D.Kind.user D.Kind.least D.Kind.closes;
        }) users.now request.now) (D.known pass.old)
        (D.words desk.old) (D.known pass.new) (D.words desk.new)) }
    ensures failed { IfUnkept result (D.failed pass.new) }
{
    let head = request.head();
    let least = D::Kind::least_of(head);
    match D::Kind::user_of(alloc, head, users) {
        Ok(user) => match D::Kind::call_of(alloc, request) {
            Ok(Asked::Write(call)) => {
                gate.pass(desk.session(pass), *calls);
                *calls = (*calls).saturating_add(1);
                write_reply_of(alloc, leave, desk, pass, &user, least, call)
            }
            Ok(Asked::Question(question)) => {
                gate.pass(desk.session(pass), *calls);
                *calls = (*calls).saturating_add(1);
                match read_reply_of(alloc, leave, desk, pass, &user, least, &question) {
                    Ok(shown) => Ok(shown),
                    Err(_) => Err(Unanswered::Memory),
                }
            }
            Err(Fail::Refused(cause)) => plain::<D::Kind>(alloc, head, &cause),
            Err(Fail::Memory) => Err(Unanswered::Memory),
        },
        Err(Fail::Refused(cause)) => plain::<D::Kind>(alloc, head, &cause),
        Err(Fail::Memory) => Err(Unanswered::Memory),
    }
}
