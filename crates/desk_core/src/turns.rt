//! The core: one version, and what each entered session holds of it.
ghost use Rattle.std.specs.Prelude.{◌≡◌, ◌+◌, ◌≤◌, ℕ, List, [], ◌∷◌, ◌++◌, length, take, IfOk, MatchOption, None, Some};
ghost use Rattle.std.specs.Arc.{arc_value};
ghost use Rattle.std.specs.Ordering.{nat_cmp};
ghost use Rattle.std.specs.FinMap.Entries.{put};
ghost use Rattle.desk_model.specs.Histories.{own};
ghost use Rattle.desk_core.specs.declared.event.Event.TheVariants.{Enter, Write, Look, Ask};
ghost use Rattle.desk_core.specs.Interleaving.{Rules, World, IsLawful, holds};
ghost use Rattle.desk_core.specs.Steps.{Stepped};

use crate::event::{CoreStop, Done, Event};
use crate::hold::Held;
use cm_base::number::Moment;
use cm_base::text::Text;
use cm_map::map::Map;
use desk_model::{Entry, Halt, Machine, Snapshot, Version};
use std::alloc::{AllocError, Global};
use std::marker::Model;
use std::sync::Arc;

/// A history, and for each entered session the prefix of it that it holds.
#[derive(Drop)]
pub struct Core<M: Machine> {
    base: u64,
    begin: Arc<Version<M>>,
    version: Arc<Version<M>>,
    held: Map<u64, Held<M>>,
}

impl<M: Machine> Model for Core<M> {
    ghost use Rattle.std.specs.Arc.{arc_value};
    ghost use Rattle.desk_core.specs.Interleaving.{World};
    ghost use Rattle.desk_core.specs.Holds.{world_of, IsCore};

    ghost Value = { World M.State M.Call };

    ghost view = { λ c. world_of c.base (arc_value c.version) c.held };

    ghost invariant = { λ c. IsCore c.base (arc_value c.begin) (arc_value c.version) c.held };
}

impl<M: Machine> Core<M> {
    /// A core that begins with a version. No session was entered.
    pub fn new(alloc: Global, version: Version<M>) -> Result<Core<M>, AllocError>
        ensures { IfOk result (λ c. c ≡ record {
          opening = version.opening;
          base = length version.journal;
          journal = version.journal;
          held = [];
        }) }
    {
        let base = version.len();
        let begin = Arc::new(alloc, version)?;
        let version = Arc::try_clone(&begin)?;
        Ok(Core {
            base,
            begin,
            version,
            held: Map::empty(alloc),
        })
    }

    /// The version that carries the whole history.
    pub fn snapshot(&self) -> Result<Snapshot<M>, AllocError>
        ensures { IfOk result (λ v. (v.opening ≡ self.now.opening) × (v.journal ≡ self.now.journal)) }
    {
        let version = Arc::try_clone(&self.version)?;
        Ok(Snapshot { version })
    }

    /// The history is legal, and the entries since the beginning are numbered.
    pub fn lawful(&self)
        ensures { IsLawful M.next self.now }
    {
        self.version.lawful();
    }

    // How many entries a session has, or none where it wasn't entered.
    fn serial_of(&self, session: u32) -> Option<u64>
        ensures { MatchOption result (holds self.now session ≡ None) (λ n. (k : ℕ) × (holds self.now session ≡ Some k)
            × (n ≡ length (own self.now.base session self.now.journal))) }
    {
        match self.held.get(&(session as u64)) {
            Some(held) => Some(held.serial),
            None => None,
        }
    }

    // The version that a session holds, or none where it wasn't entered.
    fn version_of(&self, session: u32) -> Option<&Version<M>>
        ensures { MatchOption result (holds self.now session
            ≡ None) (λ v. (holds self.now session ≡ Some (length v.now.journal)) × (v.now.opening ≡ self.now.opening)
            × (v.now.journal ≡ take (length v.now.journal) self.now.journal)) }
    {
        match self.held.get(&(session as u64)) {
            Some(held) => Some(&*held.seen),
            None => None,
        }
    }

    // A session begins. It holds what the core began with.
    fn enter(&mut self, alloc: Global, session: u32) -> Result<Done<M::Shown>, CoreStop<M::Cause>>
        ensures { Stepped (record { next = M.next; answer = M.answer; number = M.number }) self.old
            (Enter session) result self.new }
    {
        match self.serial_of(session) {
            Some(_) => return Err(CoreStop::Known),
            None => {}
        }
        let number = self.begin.number();
        let held = with_held(alloc, &self.held, session, &self.begin, 0)?;
        self.held = held;
        Ok(Done::Entered(number))
    }

    // A session looks at the whole.
    fn look(&mut self, alloc: Global, session: u32) -> Result<Done<M::Shown>, CoreStop<M::Cause>>
        ensures { Stepped (record { next = M.next; answer = M.answer; number = M.number }) self.old
            (Look session) result self.new }
    {
        let serial = match self.serial_of(session) {
            Some(serial) => serial,
            None => return Err(CoreStop::Unknown),
        };
        let number = self.version.number();
        let whole = with_held(alloc, &self.held, session, &self.version, serial)?;
        self.held = whole;
        Ok(Done::Looked(number))
    }

    // A session writes. Accepted or refused, it then holds the whole.
    fn write(
        &mut self,
        alloc: Global,
        session: u32,
        user: Text,
        moment: Moment,
        call: M::Call,
    ) -> Result<Done<M::Shown>, CoreStop<M::Cause>>
        ensures { Stepped (record { next = M.next; answer = M.answer; number = M.number }) self.old
            (Write session user moment call) result self.new }
    {
        let serial = match self.serial_of(session) {
            Some(serial) => serial,
            None => return Err(CoreStop::Unknown),
        };
        let entry = Entry {
            session,
            serial,
            user,
            moment,
            call,
        };
        match self.version.next(alloc, entry) {
            Ok((version, shown)) => {
                let _len = version.len();
                let number = version.number();
                let version = Arc::new(alloc, version)?;
                let held = with_held(alloc, &self.held, session, &version, serial + 1)?;
                self.version = version;
                self.held = held;
                Ok(Done::Wrote(shown, number))
            }
            Err(Halt::Refused(cause)) => {
                let number = self.version.number();
                let seen = with_held(alloc, &self.held, session, &self.version, serial)?;
                self.held = seen;
                Err(CoreStop::Refused { cause, number })
            }
            Err(Halt::Memory) => Err(CoreStop::Memory),
        }
    }

    // A session asks at what it holds.
    fn ask(
        &self,
        alloc: Global,
        session: u32,
        user: &Text,
        question: &M::Question,
    ) -> Result<Done<M::Shown>, CoreStop<M::Cause>>
        ensures { Stepped (record { next = M.next; answer = M.answer; number = M.number }) self.now
            (Ask session user.now question.now) result self.now }
    {
        let version = match self.version_of(session) {
            Some(version) => version,
            None => return Err(CoreStop::Unknown),
        };
        let number = version.number();
        match M::answer(alloc, version.state(), user, question) {
            Ok(shown) => Ok(Done::Said(shown, number)),
            Err(Halt::Refused(cause)) => Err(CoreStop::Refused { cause, number }),
            Err(Halt::Memory) => Err(CoreStop::Memory),
        }
    }

    /// Makes one step of one session.
    pub fn step(
        &mut self,
        alloc: Global,
        event: Event<M::Call, M::Question>,
    ) -> Result<Done<M::Shown>, CoreStop<M::Cause>>
        ensures { Stepped (record {
          next = M.next;
          answer = M.answer;
          number = M.number;
        }) self.old event result self.new }
    {
        match event {
            Event::Enter { session } => self.enter(alloc, session),
            Event::Write {
                session,
                user,
                moment,
                call,
            } => self.write(alloc, session, user, moment, call),
            Event::Look { session } => self.look(alloc, session),
            Event::Ask {
                session,
                user,
                question,
            } => self.ask(alloc, session, &user, &question),
        }
    }
}

// What is held, with a version held by a session that has so many entries in it.
fn with_held<M: Machine>(
    alloc: Global,
    held: &Map<u64, Held<M>>,
    session: u32,
    version: &Arc<Version<M>>,
    serial: u64,
) -> Result<Map<u64, Held<M>>, AllocError>
    ensures { IfOk result (λ all. all ≡ put nat_cmp session
        (record { seen = arc_value version.now; serial = serial }) held.now) }
{
    let seen = Arc::try_clone(version)?;
    let all = held.with(alloc, session as u64, Held { seen, serial })?;
    Ok(all)
}
