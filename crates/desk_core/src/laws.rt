//! The laws of runs, as public functions with empty bodies.
ghost use Rattle.std.specs.Prelude.{◌≡◌, ℕ, ◌++◌, List, map};
ghost use Rattle.desk_model.specs.Histories.{own};
ghost use Rattle.desk_core.specs.declared.event.Event.{Event};
ghost use Rattle.desk_core.specs.Interleaving.{World, IsLawful, run, answers, accepted, request_of};

use desk_model::Machine;

/// Whatever the events are, the history stays legal and numbered.
pub fn run_is_lawful<M: Machine>()
    ensures { (w : World M.State M.Call) (events : List (Event M.Call M.Question)) → IsLawful M.next w
        → IsLawful M.next (run (record { next = M.next; answer = M.answer; number = M.number }) w events) }
{}

/// The entries of a session past the beginning are those that it had before the events, and then its accepted writes, each once, in its order.
pub fn accepted_writes_stand_once<M: Machine>()
    ensures { (s : ℕ) (w : World M.State M.Call) (events : List (Event M.Call M.Question)) → IsLawful M.next w
        → map request_of (own w.base s (run (record {
          next = M.next;
          answer = M.answer;
          number = M.number;
        }) w events).journal)
        ≡ map request_of (own w.base s w.journal) ++ accepted s events (answers (record {
          next = M.next;
          answer = M.answer;
          number = M.number;
        }) w events) }
{}
