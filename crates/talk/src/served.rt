//! What a machine has to give for a session to serve it: how a request is read, and replies with step numbers.
ghost use Rattle.std.specs.Prelude.{◌≡◌, ℕ, Bool, List, Result, Ok, Some};
ghost use Rattle.http_grammar.specs.Request.{Head as HeadParts, Request as RequestParts};
ghost use Rattle.cm_base.specs.declared.cause.Cause.{Cause};
ghost use Rattle.cm_base.specs.declared.shown.Shown.{Shown};
ghost use Rattle.cm_base.specs.declared.user.User.{User};
ghost use Rattle.desk_model.specs.declared.entry.Entry.{Entry};
ghost use Rattle.cm_base.specs.declared.asked.Asked.{Asked};
ghost use Rattle.cm_base.specs.Judged.{Meets};

use cm_base::asked::Asked;
use cm_base::cause::Cause;
use cm_base::fail::Fail;
use cm_base::shown::Shown;
use cm_base::text::Text;
use cm_base::user::Users;
use desk_model::Machine;
use http_wire::{Head, Request};
use std::alloc::Global;

/// A machine that sessions can serve.
pub trait Served: Machine<Shown = Shown, Cause = Cause> {
    /// The call of a request, or the first cause of its arguments.
    ghost call: { RequestParts → Result (Asked Self.Call Self.Question) Cause };

    /// The user of a head, or the cause of its credentials.
    ghost user: { HeadParts → List User → Result (List ℕ) Cause };

    /// The least step number that a head asks for.
    ghost least: { HeadParts → ℕ };

    /// Whether the reply to a head is the last of its session.
    ghost closes: { HeadParts → Bool };

    /// Reads a request into a call.
    fn call_of(alloc: Global, request: &Request) -> Result<Asked<Self::Call, Self::Question>, Fail>
        ensures { Meets (λ x. x) result (call request.now) };

    /// Reads the user of a head.
    fn user_of(alloc: Global, head: &Head, users: &Users) -> Result<Text, Fail>
        ensures { Meets (λ x. x) result (user head.now users.now) };

    /// Reads the least step number that a head asks for.
    fn least_of(head: &Head) -> u64
        ensures { result ≡ least head.now };

    /// Reads whether the reply to a head is the last of its session.
    fn closes(head: &Head) -> bool
        ensures { result ≡ closes head.now };

    /// What is shown of an entry has the number of the state after it.
    ghost entry_has_number: { (s t : Self.State) (e : Entry Self.Call) (a : Shown) → Self.next s e ≡ Ok (t, a)
        → a.number ≡ Some (Self.number t) };

    /// What is shown of a question has the number of the state.
    ghost answer_has_number: { (s : Self.State) (u : List ℕ) (q : Self.Question) (a : Shown) → Self.answer s u q ≡ Ok a
        → a.number ≡ Some (Self.number s) };
}
