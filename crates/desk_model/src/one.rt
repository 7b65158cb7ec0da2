//! The desk of one thread.
ghost use Rattle.std.specs.Prelude.{◌≡◌, ◌≢◌, ◌<◌, ◌≤◌, ◌^◌, ◌+◌, ℕ, List, [], ◌∷◌, ◌++◌, length, IfOk, OnOk, OnErr, MatchResult, Option};
ghost use Rattle.std.specs.Arc.{arc_value};
ghost use Rattle.desk_model.specs.Histories.{History, own, IsLegal, grown, shown_by, state_of};
ghost use Rattle.desk_model.specs.Desks.{Known, known_at, entry_of, Wrote, Looked, ShowsSettled, IfFault};
ghost use Rattle.desk_model.specs.Halts.{TellsThird};
ghost use Rattle.desk_model.specs.Single.{Single, IsOf, Kept, the_place, kept_by_calls, with_made};

use crate::clock::moment_of_word;
use crate::desk::Desk;
use crate::entry::Entry;
use crate::machine::{Halt, Machine, Stop};
use crate::snapshot::Snapshot;
use crate::version::Version;
use cm_base::copies::Copies;
use cm_base::number::Moment;
use cm_base::text::Text;
use outside::Clock;
use std::alloc::{AllocError, Global};
use std::marker::Model;
use std::sync::Arc;

/// A pass of the desk of one thread.
#[derive(Drop)]
pub struct OnePass<M: Machine> {
    base: u64,
    number: u32,
    serial: u64,
    seen: Arc<Version<M>>,
}

impl<M: Machine> Model for OnePass<M> {
    ghost use Rattle.std.specs.Prelude.{◌≡◌, length};
    ghost use Rattle.std.specs.Arc.{arc_value};
    ghost use Rattle.desk_model.specs.Histories.{own};
    ghost use Rattle.desk_model.specs.Desks.{Known, known_at};

    ghost Value = { Known M.State M.Call };

    ghost view = { λ p. known_at p.base p.number (arc_value p.seen) };

    ghost invariant = { λ p. p.serial ≡ length (own p.base p.number (arc_value p.seen).journal) };
}

impl<M: Machine> OnePass<M> {
    // Sees a journal with as many entries of its own.
    fn see(&mut self, version: Arc<Version<M>>)
        requires { length (own self.old.base self.old.session (arc_value version).journal) ≡ length self.old.own }
        ensures { self.new ≡ known_at self.old.base self.old.session (arc_value version) }
    {
        self.seen = version;
    }

    // The entry that it would add.
    fn entry(
        &self,
        alloc: Global,
        user: &Text,
        moment: Moment,
        call: M::Call,
    ) -> Result<Entry<M::Call>, AllocError>
        ensures { IfOk result (λ e. e ≡ entry_of self.now user.now moment call) }
    {
        Ok(Entry {
            session: self.number,
            serial: self.serial,
            user: user.copied(alloc)?,
            moment,
            call,
        })
    }

    // Sees a journal with one more entry of its own.
    fn add(&mut self, version: Arc<Version<M>>)
        requires { length (own self.old.base self.old.session (arc_value version).journal) ≡ length self.old.own + 1 }
        ensures { self.new ≡ known_at self.old.base self.old.session (arc_value version) }
    {
        let _len = version.len();
        self.serial += 1;
        self.seen = version;
    }
}

/// The desk of one thread. It waits for nobody, and its passes see the whole journal at each call. Its journal ends with the process: an entry is
/// settled as it is made, and no fault comes.
#[derive(Drop)]
pub struct OneDesk<M: Machine, C: Clock> {
    base: u64,
    made: u32,
    version: Arc<Version<M>>,
    clock: C,
}

impl<M: Machine, C: Clock> Model for OneDesk<M, C> {
    ghost use Rattle.std.specs.Prelude.{◌≤◌, length, drop};
    ghost use Rattle.std.specs.Arc.{arc_value};
    ghost use Rattle.desk_model.specs.Histories.{SessionsBelow};
    ghost use Rattle.desk_model.specs.Single.{Single, single_at};

    ghost Value = { Single M.State M.Call };

    ghost view = { λ d. single_at (arc_value d.version) d.base d.made (C.words d.clock) (C.stands_for d.clock) };

    ghost invariant = { λ d. (d.base ≤ length (arc_value d.version).journal)
        × SessionsBelow d.made (drop d.base (arc_value d.version).journal) };
}

impl<M: Machine, C: Clock + Drop> OneDesk<M, C> {
    /// A desk that begins with a version. No pass was made.
    pub fn new(alloc: Global, version: Version<M>, clock: C) -> Result<OneDesk<M, C>, AllocError>
        ensures { IfOk result (λ d. d ≡ record {
          opening = version.opening;
          journal = version.journal;
          base = length version.journal;
          made = 0;
          words = C.words clock;
          stands_for = C.stands_for clock;
        }) }
    {
        let base = version.len();
        let version = Arc::new(alloc, version)?;
        Ok(OneDesk {
            base,
            made: 0,
            version,
            clock,
        })
    }

    /// A new pass: it has the next number, from 0 on, has seen the whole journal and has no own entries.
    pub fn pass(&mut self) -> Result<OnePass<M>, AllocError>
        requires { self.old.made < 4294967295 }
        ensures ok { IfOk result (λ p. IsOf M.next self.new p × (p.base ≡ self.old.base)
            × (p.opening ≡ self.old.opening) × (p.session ≡ self.old.made) × (p.seen ≡ self.old.journal)
            × (p.own ≡ [])) }
        ensures made { OnOk result (self.new ≡ with_made self.old (self.old.made + 1)) }
        ensures passes { OnOk result ((p : Known M.State M.Call) → IsOf M.next self.old p → IsOf M.next self.new p) }
        ensures err { OnErr result (self.new ≡ self.old) }
    {
        let seen = Arc::try_clone(&self.version)?;
        seen.lawful();
        let number = self.made;
        self.made = number + 1;
        Ok(OnePass {
            base: self.base,
            number,
            serial: 0,
            seen,
        })
    }

    /// Its last version, and its clock. It takes no memory.
    pub fn close(self) -> (Snapshot<M>, C)
        ensures last { result.0 ≡ record { opening = self.opening; journal = self.journal } }
        ensures words { C.words result.1 ≡ self.words }
        ensures stands_for { C.stands_for result.1 ≡ self.stands_for }
    {
        let OneDesk {
            base: _,
            made: _,
            version,
            clock,
        } = self;
        (Snapshot { version }, clock)
    }
}

impl<M: Machine, C: Clock> Desk for OneDesk<M, C> {
    type Kind = M;

    type Leave = ();

    type Pass = OnePass<M>;

    ghost is_of = { IsOf M.next };

    ghost known = { λ p. p };

    ghost sure = { λ p. length p.seen };

    ghost failed = { λ p. ⊥ };

    ghost place = { the_place };

    ghost words = { λ d. d.words };

    ghost aside = { kept_by_calls };

    fn moment(&mut self, _leave: &mut ()) -> Moment {
        moment_of_word(self.clock.now())
    }

    fn write(
        &mut self,
        alloc: Global,
        _leave: &mut (),
        pass: &mut OnePass<M>,
        least: u64,
        user: &Text,
        moment: Moment,
        call: M::Call,
    ) -> Result<M::Shown, Stop<M::Cause>>
        requires { IsOf M.next self.old pass.old }
        ensures wrote { Wrote M.next M.number pass.old least user.now moment call result pass.new }
        ensures settled { ShowsSettled result pass.new (length pass.new.seen) }
        ensures later { length pass.old.seen ≤ length pass.new.seen }
        ensures fault { IfFault result ⊥ }
        ensures kept { Kept self.old self.new pass.new (entry_of pass.old user.now moment call) result }
        ensures words { self.new.words ≡ self.old.words }
        ensures is_of { IsOf M.next self.new pass.new }
        ensures place { the_place pass.new ≡ the_place pass.old }
        ensures aside { kept_by_calls self.new ≡ kept_by_calls self.old }
        ensures passes { (p : Known M.State M.Call) → p.session ≢ pass.old.session → IsOf M.next self.old p
            → IsOf M.next self.new p }
    {
        self.version.lawful();
        let Ok(seen) = Arc::try_clone(&self.version) else {
            return Err(Stop::Memory);
        };
        let number = self.version.number();
        if number < least {
            pass.see(seen);
            return Err(Stop::Ahead { number });
        }
        let Ok(entry) = pass.entry(alloc, user, moment, call) else {
            return Err(Stop::Memory);
        };
        match next_of(alloc, &self.version, entry) {
            Ok((version, seen, shown)) => {
                self.version = version;
                pass.add(seen);
                Ok(shown)
            }
            Err(Halt::Refused(cause)) => {
                pass.see(seen);
                Err(Stop::Refused { cause, number })
            }
            Err(Halt::Memory) => Err(Stop::Memory),
        }
    }

    fn look(&mut self, _leave: &mut (), pass: &mut OnePass<M>) -> Result<Snapshot<M>, AllocError>
        requires { IsOf M.next self.old pass.old }
        ensures looked { MatchResult result (λ v. Looked pass.old v pass.new) (λ _. pass.new ≡ pass.old) }
        ensures settled { OnOk result (length pass.new.seen ≤ length pass.new.seen) }
        ensures later { length pass.old.seen ≤ length pass.new.seen }
        ensures whole { IfOk result (λ v. v.journal ≡ self.old.journal) }
        ensures kept { self.new ≡ self.old }
        ensures words { self.new.words ≡ self.old.words }
        ensures is_of { IsOf M.next self.new pass.new }
        ensures place { the_place pass.new ≡ the_place pass.old }
        ensures aside { kept_by_calls self.new ≡ kept_by_calls self.old }
        ensures passes { (p : Known M.State M.Call) → IsOf M.next self.old p → IsOf M.next self.new p }
    {
        let version = Arc::try_clone(&self.version)?;
        let whole = Arc::try_clone(&self.version)?;
        self.version.lawful();
        pass.see(whole);
        Ok(Snapshot { version })
    }

    fn session(&self, pass: &OnePass<M>) -> u32 {
        pass.number
    }

    ghost below = { λ d p h. h.below };

    ghost sound = { λ d p h. h.sound };
}

// The version with one entry more, twice, or the machine's refusal.
fn next_of<M: Machine>(
    alloc: Global,
    version: &Arc<Version<M>>,
    entry: Entry<M::Call>,
) -> Result<(Arc<Version<M>>, Arc<Version<M>>, M::Shown), Halt<M::Cause>>
    ensures grown { IfOk result (λ r. (arc_value r.0 ≡ grown (arc_value version.now) entry)
        × (arc_value r.1 ≡ arc_value r.0)) }
    ensures lawful { IfOk result (λ r. IsLegal M.next (arc_value r.0).opening (arc_value r.0).journal) }
    ensures told { TellsThird (shown_by (M.next (state_of M.next (arc_value version.now)) entry)) result }
{
    let (next, shown) = version.next(alloc, entry)?;
    next.lawful();
    let next = Arc::new(alloc, next)?;
    let again = Arc::try_clone(&next)?;
    Ok((next, again, shown))
}
