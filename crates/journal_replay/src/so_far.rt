//! A journal that is being replayed.
ghost use Rattle.std.specs.Prelude.{◌≡◌, List, [], ◌∷◌, ◌++◌, ℕ, IsOk, IfOk, IfErr};
ghost use Rattle.journal_replay.specs.Recorded.{with_entry, with_people};
ghost use Rattle.journal_replay.specs.Replayed.{Replays, reading_of, at_root, IsStoppedAtRoot, IsStoppedBehind, IsRefused};

use crate::code::JournalCode;
use crate::record::{Record, Root};
use crate::restarts::Restarts;
use crate::start_stop::StartStop;
use byte_codec::stop::DecodeStop;
use desk_model::{Entry, Halt, Machine};
use std::alloc::{AllocError, Global};
use std::marker::Model;

/// What is known of a journal whose payloads so far were replayed.
#[derive(Drop)]
pub struct SoFar<M: Machine, P> {
    pub state: M::State,
    /// How many entries there were.
    pub entries: u64,
    /// One more than the greatest number of a session, 0 where there was no entry.
    pub sessions: u64,
    /// The people that hold.
    pub people: P,
}

impl<M: Machine, P> Model for SoFar<M, P> {
    ghost use Rattle.journal_replay.specs.Recorded.{Replay};

    ghost Value = { Replay M.State P };

    ghost view = { λ s. record { state = s.state; entries = s.entries; sessions = s.sessions; people = s.people } };
}

// Behind a root alone.
fn behind_root<M: Restarts<P>, P: Drop>(
    alloc: Global,
    root: Root<P>,
) -> Result<SoFar<M, P>, AllocError>
    ensures { IfOk result (λ s. s ≡ at_root M.opening root) }
{
    let state = M::opening(alloc, &root)?;
    Ok(SoFar {
        state,
        entries: 0,
        sessions: 0,
        people: root.people,
    })
}

/// What the first payload tells.
pub(crate) fn first<M: Restarts<P>, P: Drop, F: JournalCode<M::Call, P>>(
    alloc: Global,
    bytes: &[u8],
) -> Result<SoFar<M, P>, StartStop>
    ensures replays { IfOk result (Replays (reading_of F.root_codec F.record_codec M.opening M.next M.adopt)
        (bytes.now ∷ [])) }
    ensures stopped { IfErr result (IsStoppedAtRoot
        (reading_of F.root_codec F.record_codec M.opening M.next M.adopt) bytes.now) }
{
    match F::read_root(alloc, bytes) {
        Ok(root) => match behind_root::<M, P>(alloc, root) {
            Ok(so_far) => Ok(so_far),
            Err(_) => Err(StartStop::Memory),
        },
        Err(DecodeStop::NotAnEntry) => Err(StartStop::Stopped(0)),
        Err(DecodeStop::Memory) => Err(StartStop::Memory),
    }
}

impl<M: Machine, P: Drop> SoFar<M, P> {
    // One entry more. More than can be counted are told as want of memory.
    fn with_entry(self, alloc: Global, entry: &Entry<M::Call>) -> Result<SoFar<M, P>, StartStop>
        ensures sound { IfOk result (λ _. IsOk (M.next self.state entry.now)) }
        ensures went { IfOk result (λ s. s ≡ with_entry M.next self entry.now) }
        ensures refused { IfErr result (IsRefused (M.next self.state entry.now) self.entries) }
    {
        let Some(entries) = self.entries.checked_add(1) else {
            return Err(StartStop::Memory);
        };
        match M::next(alloc, &self.state, entry) {
            Ok((state, _)) => Ok(SoFar {
                state,
                entries,
                sessions: self.sessions.max(entry.session as u64 + 1),
                people: self.people,
            }),
            Err(Halt::Refused(_)) => Err(StartStop::Stopped(self.entries)),
            Err(Halt::Memory) => Err(StartStop::Memory),
        }
    }

    // With other people from here on.
    fn with_people(self, alloc: Global, people: P) -> Result<SoFar<M, P>, AllocError>
    where
        M: Restarts<P>,
        ensures { IfOk result (λ s. s ≡ with_people M.adopt self people) }
    {
        let state = M::adopt(alloc, &self.state, &people)?;
        Ok(SoFar {
            state,
            entries: self.entries,
            sessions: self.sessions,
            people,
        })
    }
}

/// One payload more.
pub(crate) fn next<M: Restarts<P>, P: Drop, F: JournalCode<M::Call, P>>(
    alloc: Global,
    so_far: SoFar<M, P>,
    bytes: &[u8],
) -> Result<SoFar<M, P>, StartStop>
    ensures replays { (before : List (List ℕ))
        → Replays (reading_of F.root_codec F.record_codec M.opening M.next M.adopt) before so_far
        → IfOk result (Replays (reading_of F.root_codec F.record_codec M.opening M.next M.adopt)
        (before ++ bytes.now ∷ [])) }
    ensures stopped { IfErr result (IsStoppedBehind
        (reading_of F.root_codec F.record_codec M.opening M.next M.adopt) so_far bytes.now) }
{
    match F::read_record(alloc, bytes) {
        Ok(Record::Written(entry)) => so_far.with_entry(alloc, &entry),
        Ok(Record::Changed(people)) => match so_far.with_people(alloc, people) {
            Ok(so_far) => Ok(so_far),
            Err(_) => Err(StartStop::Memory),
        },
        Err(DecodeStop::NotAnEntry) => Err(StartStop::Stopped(so_far.entries)),
        Err(DecodeStop::Memory) => Err(StartStop::Memory),
    }
}
