//! Laws of lists of entries: legal ones join, and stay legal with other numbers of sessions.
ghost use Rattle.std.specs.Prelude.{◌≡◌, ℕ, List, ◌++◌};
ghost use Rattle.desk_model.specs.declared.entry.Entry.{Entry};
ghost use Rattle.desk_model.specs.Histories.{IsLegal, replay};
ghost use Rattle.journal_replay.specs.Shifting.{all_shifted};

use desk_model::Machine;

/// A machine whose step doesn't read which session made an entry.
pub trait Unnumbered: Machine {
    ghost use Rattle.journal_replay.specs.Shifting.{IsSameStep};

    ghost same_step: { IsSameStep Self.next };
}

/// A legal list behind another is one legal list.
pub fn legal_lists_join<M: Machine>()
    ensures legal { (s : M.State) (g h : List (Entry M.Call))
        → IsLegal M.next s g → IsLegal M.next (replay M.next s g) h → IsLegal M.next s (g ++ h) }
    ensures replay { (s : M.State) (g h : List (Entry M.Call))
        → replay M.next s (g ++ h) ≡ replay M.next (replay M.next s g) h }
{}

/// A list of entries is as legal, and leads to the same state, with more in the numbers of its sessions.
pub fn shifted_is_legal<M: Unnumbered>()
    ensures legal { (s : M.State) (offset : ℕ) (h : List (Entry M.Call)) → IsLegal M.next s h
        → IsLegal M.next s (all_shifted offset h) }
    ensures replay { (s : M.State) (offset : ℕ) (h : List (Entry M.Call))
        → replay M.next s (all_shifted offset h) ≡ replay M.next s h }
{}
