//! The part of a turn that is made at the desk.
ghost use Rattle.std.specs.Prelude.{◌≡◌, ◌≤◌, ℕ, Bool, List, [], IfOk, OnOk, OnErr, Result, length};
ghost use Rattle.cm_base.specs.declared.user.User.{User};
ghost use Rattle.http_grammar.specs.Request.{Head};
ghost use Rattle.http_reply.specs.Replies.{reply_text};
ghost use Rattle.talk.specs.Served.{Kind, writes, reads, wire_of};
ghost use Rattle.talk.specs.Turned.{Turned, TurnUnkept, Stays, IfRefuses, IsRefusal, IfStarved, IfUnkept, verdict_shown};

use crate::served::Served;
use cm_base::cause::Cause;
use cm_base::shown::Shown;
use cm_base::text::Text;
use desk_model::{Desk, Halt, Machine, Stop};
use http_reply::cause_shown;
use std::alloc::{AllocError, Global};

/// What the desk says: a reply, or a cause at a version with this number.
#[derive(Drop)]
pub enum Verdict {
    Shows(Shown),
    Refuses(Cause, u64),
}

/// Why a request has no reply.
#[derive(Clone, Copy, Debug, PartialEq, Eq)]
pub enum Unanswered {
    /// Memory was wanted.
    Memory,
    /// The keeper of the journal failed, in this call or before it, so that what was due is not shown.
    Unkept,
}

/// Makes a write at the moment of the clock's next word. What is shown of it is settled.
pub fn write_turn<D: Desk>(
    alloc: Global,
    leave: &mut D::Leave,
    desk: &mut D,
    pass: &mut D::Pass,
    user: &Text,
    least: u64,
    call: <D::Kind as Machine>::Call,
) -> Result<Verdict, Unanswered>
where
    D::Kind: Served,
    requires { D.is_of desk.old pass.old }
    ensures is_of { D.is_of desk.new pass.new }
    ensures aside { D.aside desk.new ≡ D.aside desk.old }
    ensures place { D.place pass.new ≡ D.place pass.old }
    ensures turned { IfOk result (λ verdict. (users : List User) (head : Head) (last : Bool)
        → Turned (record {
          next = D.Kind.next;
          answer = D.Kind.answer;
          number = D.Kind.number;
          call = D.Kind.call;
          wire = wire_of D.Kind.user D.Kind.least D.Kind.closes;
        }) users head last (writes user.now least call)
        (D.known pass.old) (D.words desk.old) (reply_text (verdict_shown verdict) last) (D.known pass.new)
        (D.words desk.new)) }
    ensures refusal { IfOk result (λ verdict. IfRefuses verdict
        (Stays (D.known pass.old) (D.known pass.new) (D.words desk.old) (D.words desk.new))) }
    ensures settled { OnOk result (length (D.known pass.new).seen ≤ D.sure pass.new) }
    ensures later { D.sure pass.old ≤ D.sure pass.new }
    ensures starved { IfStarved result
        (Stays (D.known pass.old) (D.known pass.new) (D.words desk.old) (D.words desk.new)) }
    ensures unkept { IfUnkept result ((users : List User) (head : Head) (last : Bool)
        → TurnUnkept (record {
          next = D.Kind.next;
          answer = D.Kind.answer;
          number = D.Kind.number;
          call = D.Kind.call;
          wire = wire_of D.Kind.user D.Kind.least D.Kind.closes;
        }) users head last (writes user.now least call)
        (D.known pass.old) (D.words desk.old) (D.known pass.new) (D.words desk.new)) }
    ensures failed { IfUnkept result (D.failed pass.new) }
{
    let moment = desk.moment(leave);
    match desk.write(alloc, leave, pass, least, user, moment, call) {
        Ok(shown) => Ok(Verdict::Shows(shown)),
        Err(Stop::Refused { cause, number }) => Ok(Verdict::Refuses(cause, number)),
        Err(Stop::Ahead { number }) => {
            Ok(Verdict::Refuses(Cause::StepAhead(least, number), number))
        }
        Err(Stop::Memory) => Err(Unanswered::Memory),
        Err(Stop::Fault) => Err(Unanswered::Unkept),
    }
}

/// Answers a question at what the desk then shows, which is settled.
pub fn read_turn<D: Desk>(
    alloc: Global,
    leave: &mut D::Leave,
    desk: &mut D,
    pass: &mut D::Pass,
    user: &Text,
    least: u64,
    question: &<D::Kind as Machine>::Question,
) -> Result<Verdict, AllocError>
where
    D::Kind: Served,
    requires { D.is_of desk.old pass.old }
    ensures is_of { D.is_of desk.new pass.new }
    ensures aside { D.aside desk.new ≡ D.aside desk.old }
    ensures place { D.place pass.new ≡ D.place pass.old }
    ensures turned { IfOk result (λ verdict. (users : List User) (head : Head) (last : Bool)
        → Turned (record {
          next = D.Kind.next;
          answer = D.Kind.answer;
          number = D.Kind.number;
          call = D.Kind.call;
          wire = wire_of D.Kind.user D.Kind.least D.Kind.closes;
        }) users head last (reads user.now least question.now)
        (D.known pass.old) (D.words desk.old) (reply_text (verdict_shown verdict) last) (D.known pass.new)
        (D.words desk.new)) }
    ensures stays { Stays (D.known pass.old) (D.known pass.new) (D.words desk.old) (D.words desk.new) }
    ensures settled { OnOk result (length (D.known pass.new).seen ≤ D.sure pass.new) }
    ensures later { D.sure pass.old ≤ D.sure pass.new }
{
    let Ok(version) = desk.look(leave, pass) else {
        return Err(AllocError);
    };
    let number = version.number();
    if number < least {
        return Ok(Verdict::Refuses(Cause::StepAhead(least, number), number));
    }
    match version.answer(alloc, user, question) {
        Ok(answered) => Ok(Verdict::Shows(answered)),
        Err(Halt::Refused(cause)) => Ok(Verdict::Refuses(cause, number)),
        Err(Halt::Memory) => Err(AllocError),
    }
}

/// What is shown of what the desk says. A reply is there already, and takes no memory.
pub fn shown_of(alloc: Global, verdict: Verdict) -> Result<Shown, AllocError>
    ensures shown { IfOk result (λ shown. shown ≡ verdict_shown verdict) }
    ensures refusal { OnErr result (IsRefusal verdict) }
{
    match verdict {
        Verdict::Shows(shown) => Ok(shown),
        Verdict::Refuses(cause, number) => match cause_shown(alloc, &cause, Some(number)) {
            Ok(shown) => Ok(shown),
            Err(_) => Err(AllocError),
        },
    }
}
