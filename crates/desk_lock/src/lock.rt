//! The lock and its calls.
ghost use Rattle.std.specs.Prelude.{◌≡◌, ◌+◌, ◌<◌, ◌≤◌, true, false, length, IfOk, IfErr, OnOk, MatchResult};
ghost use Rattle.std.specs.Arc.{arc_value};
ghost use Rattle.desk_model.specs.Clocks.{IsOfWord};
ghost use Rattle.desk_model.specs.Desks.{Wrote, Looked, ShowsSettled, IfFault};
ghost use Rattle.desk_model.specs.Halts.{TellsThird};
ghost use Rattle.desk_model.specs.Histories.{IsLegal, grown, shown_by, state_of};
ghost use Rattle.desk_lock.specs.Board.{IsBroken, Settled};
ghost use Rattle.desk_lock.specs.Words.{HasFailed, LockView, PassView, IsOf, place_of, Splits, first_pass, knowing, with_sure, IsSure, Met, Retired, Closes, Since};

use crate::board::{Begun, Board, HOME, Laid, SHELVED, Store};
use crate::pass::Pass;
use crate::queue::Queues;
use crate::seats::{bear, catch_up, hear, take_in};
use crate::shelf::{assure, look_at_shelf, open_shelf, shut_shelf, wait_for};
use crate::turn::{commit, learn, leave, open, settle_rest};
use atomic_table::Table;
use cm_base::copies::Copies;
use cm_base::number::Moment;
use cm_base::text::Text;
use desk_model::{Entry, Halt, Keeper, Machine, Snapshot, Stop, Version, moment_of_word};
use outside::Clock;
use std::alloc::{AllocError, Global};
use std::marker::Model;
use std::snapshot;
use std::sync::{Arc, Mutex, Wait};

/// What a pass was that has ended: its number, the length of the journal that it had seen, and the number of its own entries.
#[derive(Drop)]
pub struct Tally {
    pub number: u32,
    pub seen: u64,
    pub own: u64,
}

/// Why no pass was made: 4,294,967,295 were made before, or there was no memory.
#[derive(Drop)]
pub enum SplitStop {
    Many,
    Memory,
}

/// A lock, which threads share by reference. Writes stand in one order, and a look never waits for a write's step.
#[derive(Drop)]
pub struct Lock<M: Machine, C: Clock, K: Keeper<M>> {
    pub(crate) board: Board<M, K>,
    queues: Queues<M, K>,
    clock: Mutex<C>,
    /// The keeper with which it began.
    first: snapshot::Snapshot<K>,
}

impl<M: Machine, C: Clock, K: Keeper<M>> Model for Lock<M, C, K> {
    ghost use Rattle.std.specs.Prelude.{◌≡◌};
    ghost use Rattle.desk_lock.specs.Board.{IsSized};
    ghost use Rattle.desk_lock.specs.Words.{LockView};

    ghost Value = { LockView M.State M.Call K };

    ghost view = { λ l. record {
      table = l.board.shared.table_id;
      version = l.board.shared.key.version;
      keeper = l.board.shared.key.keeper;
    } };

    ghost invariant = { λ l. IsSized l.board.shared.table_id × (l.first.value ≡ l.board.shared.key.keeper) };
}

impl<M: Machine, C: Clock + Drop, K: Keeper<M>> Lock<M, C, K> {
    /// A lock that begins with a version, and its first pass.
    pub fn begin(
        alloc: Global,
        version: Version<M>,
        clock: C,
        keeper: K,
        batches: bool,
    ) -> Result<(Lock<M, C, K>, Pass<M, K>), AllocError>
        requires { K.stands keeper (length version.journal) version.journal }
        ensures version { IfOk result (λ r. r.0.version ≡ version) }
        ensures keeper { IfOk result (λ r. r.0.keeper ≡ keeper) }
        ensures first { IfOk result (λ r. r.1 ≡ first_pass r.0) }
        ensures is_of { IfOk result (λ r. IsOf M.next r.0 r.1) }
    {
        version.lawful();
        let first = snapshot::Snapshot::of(&keeper);
        let about = Begun::of(&version, &keeper);
        let len = version.len();
        let version = Arc::new(alloc, version)?;
        let mut slots = Vec::new(alloc);
        slots.push(Some(Laid {
            version: Arc::try_clone(&version)?,
            again: None,
            settled: len,
            store: Store::Whole(keeper),
        }))?;
        slots.push(Some(Laid {
            version: Arc::try_clone(&version)?,
            again: None,
            settled: 0,
            store: Store::Absent,
        }))?;
        let Ok((board, place)) = Table::new(alloc, &[0, 0, 0, 0, 0], slots, &about) else {
            return Err(AllocError);
        };
        Ok((
            Lock {
                board,
                queues: Queues::empty(batches),
                clock: Mutex::new(clock),
                first,
            },
            Pass {
                place,
                began: version,
                number: 0,
                made: 1,
                start: len,
                seen: len,
                own: 0,
            },
        ))
    }

    /// A new pass with a new number, which has seen what the first pass has seen.
    pub fn split(&self, pass: &mut Pass<M, K>) -> Result<Pass<M, K>, SplitStop>
        requires is_of { IsOf M.next self.now pass.old }
        requires first { 0 < pass.old.made }
        ensures split { Splits pass.old pass.new result }
        ensures is_of { IsOf M.next self.now pass.new × IfOk result (λ p. IsOf M.next self.now p) }
    {
        if pass.made == u32::MAX {
            return Err(SplitStop::Many);
        }
        let Ok(began) = Arc::try_clone(&pass.began) else {
            return Err(SplitStop::Memory);
        };
        let top = &self.board.shared;
        let mut place = bear(top, &mut pass.place);
        catch_up(top, &mut place);
        let number = pass.made;
        pass.made += 1;
        Ok(Pass {
            place,
            began,
            number,
            made: 0,
            start: pass.start,
            seen: pass.seen,
            own: 0,
        })
    }

    /// `gone` ends into `keep`, which has then seen the longer of both. It takes no memory.
    pub fn retire(&self, keep: &mut Pass<M, K>, gone: Pass<M, K>) -> Tally
        requires is_of { IsOf M.next self.now keep.old × IsOf M.next self.now gone }
        requires other { gone.made ≡ 0 }
        ensures retired { Retired keep.old gone keep.new }
        ensures tally { (result.number ≡ gone.known.session) × (result.seen ≡ length gone.known.seen)
            × (result.own ≡ length gone.known.own) }
        ensures is_of { IsOf M.next self.now keep.new }
    {
        let Pass {
            place,
            began: _,
            number,
            made: _,
            start: _,
            seen,
            own,
        } = gone;
        take_in(&self.board.shared, &mut keep.place, place);
        keep.seen = if keep.seen < seen { seen } else { keep.seen };
        Tally { number, seen, own }
    }

    /// Both have then seen the longer of what they had seen. It takes no memory.
    pub fn meet(&self, a: &mut Pass<M, K>, b: &mut Pass<M, K>)
        requires is_of { IsOf M.next self.now a.old × IsOf M.next self.now b.old }
        ensures met { Met a.old b.old a.new b.new }
        ensures is_of { IsOf M.next self.now a.new × IsOf M.next self.now b.new }
    {
        let top = &self.board.shared;
        hear(top, &mut a.place, &mut b.place);
        hear(top, &mut b.place, &mut a.place);
        let most = if a.seen < b.seen { b.seen } else { a.seen };
        a.seen = most;
        b.seen = most;
    }

    // Takes the turn, and makes the write at the end of the journal, unless the least number that it asks for is ahead there.
    fn make<R: Wait>(
        &self,
        rt: &R,
        alloc: Global,
        pass: &mut Pass<M, K>,
        least: u64,
        user: &Text,
        moment: Moment,
        call: M::Call,
    ) -> Result<M::Shown, Stop<M::Cause>>
        requires { IsOf M.next self.now pass.old }
        ensures wrote { Wrote M.next M.number pass.old.known least user.now moment call result pass.new.known }
        ensures same { pass.new ≡ knowing pass.old pass.new.known }
        ensures fault { IfFault result (HasFailed K.faults) }
        ensures is_of { IsOf M.next self.now pass.new }
    {
        let Ok(user) = user.copied(alloc) else {
            return Err(Stop::Memory);
        };
        let top = &self.board.shared;
        let start = pass.began_at();
        let entry = Entry {
            session: pass.number,
            serial: pass.own,
            user,
            moment,
            call,
        };
        let Laid {
            version,
            again,
            settled,
            store,
        } = open(rt, top, &self.queues, &mut pass.place);
        version.lawful();
        let number = version.number();
        let seen = version.len();
        if number < least {
            learn(top, &mut pass.place, &version);
            let laid = Laid {
                version,
                again,
                settled,
                store,
            };
            leave(rt, top, &self.queues, &mut pass.place, start, laid);
            pass.seen = seen;
            return Err(Stop::Ahead { number });
        }
        match next_of(alloc, &version, entry) {
            Err(Halt::Memory) => {
                let laid = Laid {
                    version,
                    again,
                    settled,
                    store,
                };
                leave(rt, top, &self.queues, &mut pass.place, start, laid);
                Err(Stop::Memory)
            }
            Err(Halt::Refused(cause)) => {
                learn(top, &mut pass.place, &version);
                let laid = Laid {
                    version,
                    again,
                    settled,
                    store,
                };
                leave(rt, top, &self.queues, &mut pass.place, start, laid);
                pass.seen = seen;
                Err(Stop::Refused { cause, number })
            }
            Ok((next, again, shown)) => {
                let len = next.len();
                let version = commit(top, &mut pass.place, next);
                let laid = Laid {
                    version,
                    again: Some(again),
                    settled,
                    store,
                };
                leave(rt, top, &self.queues, &mut pass.place, start, laid);
                pass.seen = len;
                pass.own += 1;
                Ok(shown)
            }
        }
    }

    // Waits until all that the pass has seen is settled. False: the keeper has failed.
    fn wait<R: Wait>(&self, rt: &R, pass: &mut Pass<M, K>) -> bool
        requires { IsOf M.next self.now pass.old }
        ensures same { pass.new ≡ with_sure pass.old pass.new.sure }
        ensures later { pass.old.sure ≤ pass.new.sure }
        ensures sure { result ≡ true → IsSure pass.new }
        ensures failed { result ≡ false → HasFailed K.faults }
        ensures is_of { IsOf M.next self.now pass.new }
    {
        let owed = pass.seen - pass.began_at();
        wait_for(rt, &self.board.shared, &self.queues, &mut pass.place, owed)
    }

    /// Makes the write at the end of the journal, unless the least number that it asks for is ahead there, and waits until all that it was judged at is settled.
    /// A fault comes only where the count of faults of a keeper rose.
    pub fn write<R: Wait>(
        &self,
        rt: &R,
        alloc: Global,
        pass: &mut Pass<M, K>,
        least: u64,
        user: &Text,
        moment: Moment,
        call: M::Call,
    ) -> Result<M::Shown, Stop<M::Cause>>
        requires { IsOf M.next self.now pass.old }
        ensures wrote { Wrote M.next M.number pass.old.known least user.now moment call result pass.new.known }
        ensures same { pass.new ≡ with_sure (knowing pass.old pass.new.known) pass.new.sure }
        ensures later { pass.old.sure ≤ pass.new.sure }
        ensures settled { ShowsSettled result pass.new.known pass.new.sure }
        ensures fault { IfFault result (HasFailed K.faults) }
        ensures is_of { IsOf M.next self.now pass.new }
    {
        match self.make(rt, alloc, pass, least, user, moment, call) {
            Ok(shown) => {
                if self.wait(rt, pass) {
                    Ok(shown)
                } else {
                    Err(Stop::Fault)
                }
            }
            Err(Stop::Refused { cause, number }) => {
                if self.wait(rt, pass) {
                    Err(Stop::Refused { cause, number })
                } else {
                    Err(Stop::Fault)
                }
            }
            Err(Stop::Ahead { number }) => {
                if self.wait(rt, pass) {
                    Err(Stop::Ahead { number })
                } else {
                    Err(Stop::Fault)
                }
            }
            Err(Stop::Memory) => Err(Stop::Memory),
            Err(Stop::Fault) => Err(Stop::Fault),
        }
    }

    /// Takes what stands on the shelf: a version whose journal begins with all that the pass had seen, and that it has then seen.
    pub fn look<R: Wait>(&self, rt: &R, pass: &mut Pass<M, K>) -> Result<Snapshot<M>, AllocError>
        requires { IsOf M.next self.now pass.old }
        ensures looked { MatchResult result (λ v. Looked pass.old.known v pass.new.known) (λ _. pass.new.known
            ≡ pass.old.known) }
        ensures same { pass.new ≡ with_sure (knowing pass.old pass.new.known) pass.new.sure }
        ensures later { pass.old.sure ≤ pass.new.sure }
        ensures settled { OnOk result (IsSure pass.new) }
        ensures is_of { IsOf M.next self.now pass.new }
    {
        let top = &self.board.shared;
        if pass.seen - pass.began_at() > assure(top, &mut pass.place) {
            return Err(AllocError);
        }
        let version = open_shelf(rt, top, &self.queues, &mut pass.place);
        version.lawful();
        match Arc::try_clone(&version) {
            Ok(copy) => {
                pass.seen = version.len();
                look_at_shelf(top, &mut pass.place, &version);
                shut_shelf(top, &self.queues, &mut pass.place, version);
                Ok(Snapshot { version: copy })
            }
            Err(failed) => {
                shut_shelf(top, &self.queues, &mut pass.place, version);
                Err(failed)
            }
        }
    }

    /// A pass that comes back from a desk at its old place, with its opening and beginning, is still one of this lock.
    #[tactic(auto, using(crate::proofs::Knowing::back))]
    pub fn takes_back(&self)
        ensures { (d : LockView M.State M.Call K) (p q : PassView M.State M.Call) → IsOf M.next self.now p
            → IsOf M.next d q → place_of q.table ≡ place_of p.table → q.known.opening ≡ p.known.opening
            → q.known.base ≡ p.known.base → IsOf M.next self.now q }
    {}

    /// The moment of the clock's next word. It takes no memory.
    pub fn moment<R: Wait>(&self, rt: &R) -> Moment
        ensures { IsOfWord result }
    {
        moment_of_word(self.clock.lock(rt).now())
    }

    /// The one journal, the clock, and the keeper, at which all of the journal stands; or, where the keeper has failed, a front of it, with all that this pass
    /// is sure of. The keeper goes on from the one with which the lock began. Every other pass has ended into this one, which is the first. It takes no memory.
    pub fn close(self, pass: Pass<M, K>) -> (Snapshot<M>, C, Store<K>)
        requires is_of { IsOf M.next self pass }
        requires all { pass.made ≡ 1 + length pass.ended }
        ensures closes { Closes self pass result.0 }
        ensures kept { Settled (Since K.stands K.went self.keeper) result.2 result.0.journal pass.sure }
        ensures failed { IsBroken result.2 → HasFailed K.faults }
    {
        let Lock {
            board,
            queues: _,
            clock,
            first,
        } = self;
        let Pass {
            place,
            began: _,
            number: _,
            made: _,
            start: _,
            seen: _,
            own: _,
        } = pass;
        let mut closed = board.close_with(place);
        let home = closed.take(HOME);
        let _shelved = closed.take(SHELVED);
        closed.free();
        let Some(laid) = home else { unreachable!() };
        let Laid {
            version,
            again: _,
            settled,
            store,
        } = laid;
        let store = settle_rest(&first, &version, settled, store);
        (Snapshot { version }, clock.into_inner(), store)
    }
}

// The version with one entry more, twice, or the machine's refusal.
fn next_of<M: Machine>(
    alloc: Global,
    version: &Arc<Version<M>>,
    entry: Entry<M::Call>,
) -> Result<(Arc<Version<M>>, Arc<Version<M>>, M::Shown), Halt<M::Cause>>
    ensures grown { IfOk result (λ r. (arc_value r.0 ≡ grown (arc_value version.now) entry)
        × (arc_value r.1 ≡ arc_value r.0)) }
    ensures lawful { IfOk result (λ r. IsLegal M.next (arc_value r.0).opening (arc_value r.0).journal) }
    ensures told { TellsThird (shown_by (M.next (state_of M.next (arc_value version.now)) entry)) result }
{
    let (next, shown) = version.next(alloc, entry)?;
    next.lawful();
    let next = Arc::new(alloc, next)?;
    let again = Arc::try_clone(&next)?;
    Ok((next, again, shown))
}
