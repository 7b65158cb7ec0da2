//! The laws of sessions, as public functions with empty bodies.
ghost use Rattle.std.specs.Prelude.{◌≡◌, ℕ, Bool, List, Result, Some};
ghost use mathlib.Core.List.{IsPrefix};
ghost use Rattle.outside.specs.Clocks.{Words};
ghost use Rattle.cm_base.specs.declared.cause.Cause.{Cause};
ghost use Rattle.cm_base.specs.declared.number.Moment.{Moment};
ghost use Rattle.cm_base.specs.declared.user.User.{User};
ghost use Rattle.desk_model.specs.declared.entry.Entry.{Entry};
ghost use Rattle.desk_model.specs.Histories.{own};
ghost use Rattle.http_grammar.specs.Request.{Request};
ghost use Rattle.cm_base.specs.declared.asked.Asked.{Asked};
ghost use Rattle.talk.specs.declared.end.End.{End};
ghost use Rattle.talk.specs.Wire.{Wire};
ghost use Rattle.talk.specs.Session.{Setting, Session};
ghost use Rattle.talk.specs.Told.{Gives};
ghost use Rattle.talk.specs.Alone.{Alone, IsFinal, alone_at};

use cm_base::cause::Cause;
use cm_base::shown::Shown;
use desk_model::Machine;
use http_grammar::{first_is_one, request_lies_within};

/// What a session was over a history it is over each longer one in which its own entries are the same, with the same turns.
pub fn session_stands<M: Machine<Shown = Shown, Cause = Cause>>()
    ensures { (wire : Wire) (call : Request → Result (Asked M.Call M.Question) Cause) (at : Setting M.State) (after : ℕ)
        (g h : List (Entry M.Call))
        (input : List ℕ) (over : Bool) (output : List ℕ) (times : List Moment) (read_failed write_failed : Bool)
        (end : End)
        (s : Session (record { next = M.next; answer = M.answer; number = M.number; call = call; wire = wire }) at after
        g input over output times read_failed write_failed end)
        → IsPrefix g h → own 0 at.number h ≡ own 0 at.number g
        → (t : Session (record { next = M.next; answer = M.answer; number = M.number; call = call; wire = wire }) at
        after h input over output times read_failed write_failed end) × (t.turns ≡ s.turns) }
{}

/// The session alone has one output, one end and one history.
pub fn alone_is_one<M: Machine<Shown = Shown, Cause = Cause>>()
    ensures { (wire : Wire) (call : Request → Result (Asked M.Call M.Question) Cause) (opening : M.State)
        (users : List User) (words : Words)
        (input o p : List ℕ) (end stop : End) (g h : List (Entry M.Call))
        → Alone (record { next = M.next; answer = M.answer; number = M.number; call = call; wire = wire }) opening users
        words input o end g
        → Alone (record { next = M.next; answer = M.answer; number = M.number; call = call; wire = wire }) opening users
        words input p stop h
        → (o ≡ p) × (end ≡ stop) × (g ≡ h) }
{
    first_is_one();
    request_lies_within();
}

/// A session that ends well or by a fault of its bytes, and all whose history is its own, is the session alone on the bytes that it was given.
pub fn session_alone<M: Machine<Shown = Shown, Cause = Cause>>()
    ensures { (wire : Wire) (call : Request → Result (Asked M.Call M.Question) Cause) (opening : M.State)
        (users : List User) (words rest : Words)
        (after : ℕ) (h : List (Entry M.Call)) (input : List ℕ) (over : Bool) (output : List ℕ) (times : List Moment)
        (read_failed write_failed : Bool) (end : End)
        → Session (record { next = M.next; answer = M.answer; number = M.number; call = call; wire = wire })
        (alone_at opening users) after h input over output times read_failed write_failed end
        → own 0 0 h ≡ h → Gives words times (Some rest) → IsFinal end
        → Alone (record { next = M.next; answer = M.answer; number = M.number; call = call; wire = wire }) opening users
        words input output end h }
{}
