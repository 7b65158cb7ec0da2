//! What a file replays to, and what it replays to behind a run.
ghost use Rattle.std.specs.Prelude.{◌≡◌, ℕ, List};
ghost use Rattle.desk_model.specs.declared.entry.Entry.{Entry};
ghost use Rattle.desk_model.specs.Histories.{IsLegal};
ghost use Rattle.journal_keeper.specs.Standing.{StandsForFront};
ghost use Rattle.journal_replay.specs.Recorded.{Replay};
ghost use Rattle.journal_replay.specs.Replayed.{Replays, reading_of};
ghost use Rattle.journal_replay.specs.Starts.{StandsForReplay};
ghost use Rattle.journal_laws.specs.Runs.{EntriesAreRecords, OnlyLimits, StandsBehind};

use journal_file::one_reading;
use journal_keeper::EntryCode;
use journal_replay::{JournalCode, Restarts, Unnumbered, shifted_is_legal};

/// Payloads have one replay, and so has a file.
pub fn one_replay<M: Restarts<P>, P: Drop, F: JournalCode<M::Call, P>>()
    ensures payloads { (payloads : List (List ℕ)) (r s : Replay M.State P)
        → Replays (reading_of F.root_codec F.record_codec M.opening M.next M.adopt) payloads r
        → Replays (reading_of F.root_codec F.record_codec M.opening M.next M.adopt) payloads s → r ≡ s }
    ensures file { (file : List ℕ) (r s : Replay M.State P)
        → StandsForReplay (reading_of F.root_codec F.record_codec M.opening M.next M.adopt) r file
        → StandsForReplay (reading_of F.root_codec F.record_codec M.opening M.next M.adopt) s file → r ≡ s }
{
    one_reading();
}

/// A file that stands for a front of a run's entries behind what it stood for as the run began is read so by the next start, whatever limits
/// the run had: it stands for a replay that goes on from the one at which the run began.
pub fn front_is_replayed<
    M: Unnumbered + Restarts<P>,
    P: Drop,
    F: JournalCode<M::Call, P> + EntryCode<M::Call>,
>()
    ensures { EntriesAreRecords F.codec F.record_codec
        → (before : List (List ℕ)) (first : Replay M.State P) (under : M.State → M.State) (offset n : ℕ)
        (h : List (Entry M.Call)) (file : List ℕ)
        → Replays (reading_of F.root_codec F.record_codec M.opening M.next M.adopt) before first
        → OnlyLimits M.next under first.state → IsLegal M.next (under first.state) h
        → StandsForFront F.codec offset before n h file
        → StandsBehind (reading_of F.root_codec F.record_codec M.opening M.next M.adopt) under offset first n h file }
{
    shifted_is_legal::<M>();
}
