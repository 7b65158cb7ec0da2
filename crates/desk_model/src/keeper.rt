//! Keepers: where the entries of a journal stand when the process ends.
ghost use Rattle.std.specs.Prelude.{◌≡◌, ◌≤◌, ℕ, List, length, take, OnOk, OnErr};
ghost use mathlib.Core.List.{IsPrefix};
ghost use Rattle.outside.specs.Outside.{HasCause};
ghost use Rattle.desk_model.specs.declared.entry.Entry.{Entry};

use crate::machine::Machine;
use crate::version::Version;
use outside::Failed;

/// A place where the entries of one journal stand.
pub trait Keeper<M: Machine>: Drop {
    /// A front of these entries stands there, with at least the first so many of them, and a crash leaves nothing else.
    ghost stands: { Self → ℕ → List (Entry M.Call) → Type 0 };

    /// From the first keeper to the second: at each moment since, a front of these entries stood, with at least the first so many of them.
    ghost went: { Self → Self → ℕ → List (Entry M.Call) → Type 0 };

    /// The count of faults.
    ghost faults: { Self → ℕ };

    /// Keeps the version's entries from this place on. Where it fails, those before this place stand, and maybe some of the others behind them.
    fn keep(&mut self, version: &Version<M>, from: u64) -> Result<(), Failed>
        requires within { from ≤ length version.now.journal }
        requires before { stands self.old from (take from version.now.journal) }
        ensures kept { OnOk result (stands self.new (length version.now.journal) version.now.journal) }
        ensures front { OnErr result (stands self.new from version.now.journal) }
        ensures went { went self.old self.new from version.now.journal }
        ensures cause { HasCause (faults self.old) (faults self.new) result };

    /// Where nothing happens.
    ghost at_once: { (k : Self) (n : ℕ) (h : List (Entry M.Call)) → went k k n h };

    /// One run after another, with no fewer entries.
    ghost joins: { (first mid last : Self) (m n : ℕ) (g h : List (Entry M.Call)) → went first mid m g
        → went mid last n h → m ≤ n → IsPrefix g h → went first last m h };
}

/// A keeper for a journal that ends with the process: it keeps nothing, and never fails.
#[derive(Drop)]
pub struct Nowhere;

impl<M: Machine> Keeper<M> for Nowhere {
    ghost stands = { λ k n h. Unit {0} };

    ghost went = { λ k l n h. Unit {0} };

    ghost faults = { λ k. 0 };

    fn keep(&mut self, _version: &Version<M>, _from: u64) -> Result<(), Failed> {
        Ok(())
    }

    ghost at_once = { λ k n h. tt };

    ghost joins = { λ first mid last m n g h one more le begins. tt };
}
