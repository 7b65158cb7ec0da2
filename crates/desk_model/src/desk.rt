//! Desks: where writes are made one after the other, and looked at.
ghost use Rattle.std.specs.Prelude.{◌≡◌, ◌≢◌, ◌≤◌, ℕ, List, Option, Some, IfSome, MatchResult, OnOk, Result, drop, length};
ghost use Rattle.outside.specs.Clocks.{Words, first_word, rest_words};
ghost use Rattle.desk_model.specs.Clocks.{moment_of, IsOfWord};
ghost use Rattle.desk_model.specs.Histories.{SessionsBelow};
ghost use Rattle.desk_model.specs.Desks.{Known, KeptByCalls, IsSound, Wrote, Looked, ShowsSettled, IfFault};

use crate::machine::{Machine, Stop};
use crate::snapshot::Snapshot;
use cm_base::number::Moment;
use cm_base::text::Text;
use std::alloc::{AllocError, Global};

/// A place at which writes are made at the end of one journal. Who writes or looks holds a pass of it.
pub trait Desk {
    type Kind: Machine;
    /// What a call needs in order to wait for its turn.
    type Leave;

    type Pass;

    /// The pass is one of this desk.
    ghost is_of: { Self → Self.Pass → Type 0 };

    /// What a pass knows.
    ghost known: { Self.Pass → Known Self.Kind.State Self.Kind.Call };

    /// So many entries of what the pass has seen are settled, if not more: they stand at the keeper of the desk's journal.
    ghost sure: { Self.Pass → ℕ };

    /// The keeper has failed, and the pass was told.
    ghost failed: { Self.Pass → Type 0 };

    /// What tells the pass's desk from others, as numbers.
    ghost place: { Self.Pass → List ℕ };

    /// The words of the clock that are still to come, where the desk tells them.
    ghost words: { Self → Option Words };

    /// What no call changes: the number below which all sessions of entries past a pass's base are, and the references that the desk holds, by their ghost names.
    ghost aside: { Self → KeptByCalls };

    /// The moment of the clock's next word; at a desk that tells no words it is that of some word. No other call takes one.
    fn moment(&mut self, leave: &mut Self::Leave) -> Moment
        ensures of_word { IsOfWord result }
        ensures word { IfSome (words self.old) (λ w. (result ≡ moment_of (first_word w))
            × (words self.new ≡ Some (rest_words w))) }
        ensures aside { aside self.new ≡ aside self.old }
        ensures passes { (p : Self.Pass) → is_of self.old p → is_of self.new p };

    /// Makes a write at the end of the journal, unless the least number that it asks for is ahead there. What it shows is settled.
    fn write(
        &mut self,
        alloc: Global,
        leave: &mut Self::Leave,
        pass: &mut Self::Pass,
        least: u64,
        user: &Text,
        moment: Moment,
        call: <Self::Kind as Machine>::Call,
    ) -> Result<<Self::Kind as Machine>::Shown, Stop<<Self::Kind as Machine>::Cause>>
        requires { is_of self.old pass.old }
        ensures wrote { Wrote Self.Kind.next Self.Kind.number (known pass.old) least user.now moment call result
            (known pass.new) }
        ensures settled { ShowsSettled result (known pass.new) (sure pass.new) }
        ensures later { sure pass.old ≤ sure pass.new }
        ensures fault { IfFault result (failed pass.new) }
        ensures words { words self.new ≡ words self.old }
        ensures is_of { is_of self.new pass.new }
        ensures place { place pass.new ≡ place pass.old }
        ensures aside { aside self.new ≡ aside self.old }
        ensures passes { (p : Self.Pass) → (known p).session ≢ (known pass.old).session → is_of self.old p
            → is_of self.new p };

    /// A version whose journal begins with all that the pass had seen, and is settled.
    fn look(
        &mut self,
        leave: &mut Self::Leave,
        pass: &mut Self::Pass,
    ) -> Result<Snapshot<Self::Kind>, AllocError>
        requires { is_of self.old pass.old }
        ensures looked { MatchResult result (λ v. Looked (known pass.old) v (known pass.new)) (λ _. known pass.new
            ≡ known pass.old) }
        ensures settled { OnOk result (length (known pass.new).seen ≤ sure pass.new) }
        ensures later { sure pass.old ≤ sure pass.new }
        ensures words { words self.new ≡ words self.old }
        ensures is_of { is_of self.new pass.new }
        ensures place { place pass.new ≡ place pass.old }
        ensures aside { aside self.new ≡ aside self.old }
        ensures passes { (p : Self.Pass) → is_of self.old p → is_of self.new p };

    /// The pass's number. It takes no memory.
    fn session(&self, pass: &Self::Pass) -> u32
        requires { is_of self.now pass.now }
        ensures { result ≡ (known pass.now).session };

    /// The sessions of what a pass of the desk sees past its base.
    ghost below: { (d : Self) (p : Self.Pass) → is_of d p
        → SessionsBelow (aside d).sessions (drop (known p).base (known p).seen) };

    /// Each pass of a desk is sound.
    ghost sound: { (d : Self) (p : Self.Pass) → is_of d p → IsSound Self.Kind.next (known p) };
}
