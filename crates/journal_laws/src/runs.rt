//! A run, and the next one over its file.
ghost use Rattle.std.specs.Prelude.{◌≡◌, ℕ, List};
ghost use Rattle.std.specs.declared.option.Option.{Option};
ghost use Rattle.desk_model.specs.declared.entry.Entry.{Entry};
ghost use Rattle.desk_model.specs.Histories.{IsLegal};
ghost use Rattle.disk.specs.Crashes.{MayLeave};
ghost use Rattle.disk.specs.Disks.{DiskTold};
ghost use Rattle.journal_keeper.specs.declared.lost.Lost.{Lost};
ghost use Rattle.journal_replay.specs.declared.record.Root.{Root};
ghost use Rattle.journal_replay.specs.Recorded.{Replay};
ghost use Rattle.journal_replay.specs.Replayed.{reading_of};
ghost use Rattle.journal_replay.specs.Starts.{StandsForReplay};
ghost use Rattle.journal_start.specs.declared.meeting.Meeting.{Meeting};
ghost use Rattle.journal_start.specs.declared.meeting.Meeting.TheVariants.{Same, Changed};
ghost use Rattle.journal_runs.specs.Begins.{BegunIn};
ghost use Rattle.journal_runs.specs.Leaves.{KeptIn};
ghost use Rattle.journal_laws.specs.Runs.{EntriesAreRecords, AreOnlyLimits, LeavesReplay, IsStateBehind};

use crate::replays::front_is_replayed;
use journal_file::one_reading;
use journal_keeper::EntryCode;
use journal_replay::{JournalCode, Restarts, Unnumbered};

/// Over a file that stands for a replay a run begins with its state, under the limits of the run, and its first session has the number
/// behind the greatest there. With other people the state is the one that has adopted them.
pub fn run_begins_with_replay<M: Restarts<P>, P: Drop, F: JournalCode<M::Call, P>>()
    ensures same { (judged : P → P → Meeting) (root : Root P) (under : M.State → M.State) (old begun : DiskTold)
        (state : M.State) (offset : ℕ) (r : Replay M.State P)
        → StandsForReplay (reading_of F.root_codec F.record_codec M.opening M.next M.adopt) r old.file.seen
        → BegunIn (reading_of F.root_codec F.record_codec M.opening M.next M.adopt) judged root under old begun
        state offset
        → judged r.people root.people ≡ Same → (state ≡ under r.state) × (offset ≡ r.sessions) }
    ensures changed { (judged : P → P → Meeting) (root : Root P) (under : M.State → M.State) (old begun : DiskTold)
        (state : M.State) (offset : ℕ) (r : Replay M.State P)
        → StandsForReplay (reading_of F.root_codec F.record_codec M.opening M.next M.adopt) r old.file.seen
        → BegunIn (reading_of F.root_codec F.record_codec M.opening M.next M.adopt) judged root under old begun
        state offset
        → judged r.people root.people ≡ Changed
        → (state ≡ under (M.adopt r.state root.people)) × (offset ≡ r.sessions) }
{
    one_reading();
}

/// A run that began over a file and has kept its entries there leaves a file that stands for a replay: the one at which it began, and behind it a front
/// of its entries. At a crash at any moment of the run it is some front; at its end it has all entries that are sure, and all where
/// nothing is unkept.
pub fn run_leaves_replay<
    M: Unnumbered + Restarts<P>,
    P: Drop,
    F: JournalCode<M::Call, P> + EntryCode<M::Call>,
>()
    ensures { EntriesAreRecords F.codec F.record_codec
        → (judged : P → P → Meeting) (root : Root P) (under : M.State → M.State) (old begun now : DiskTold)
        (state : M.State) (offset sure : ℕ) (h : List (Entry M.Call)) (unkept : Option (Option Lost))
        → AreOnlyLimits (reading_of F.root_codec F.record_codec M.opening M.next M.adopt) under
        → (run : BegunIn (reading_of F.root_codec F.record_codec M.opening M.next M.adopt) judged root under old begun
        state offset)
        → IsLegal M.next state h → KeptIn F.codec offset begun now h sure unkept
        → LeavesReplay (reading_of F.root_codec F.record_codec M.opening M.next M.adopt) under offset run.replay
        begun now h sure unkept }
{
    one_reading();
    front_is_replayed::<M, P, F>();
}

/// A run with the same people, over a file that a crash may leave at the end of the one before, begins with the state to which the entries led that
/// were kept, under its own limits. One with other people begins with that state once it has adopted them.
pub fn next_run_goes_on<
    M: Unnumbered + Restarts<P>,
    P: Drop,
    F: JournalCode<M::Call, P> + EntryCode<M::Call>,
>()
    ensures same { EntriesAreRecords F.codec F.record_codec
        → (judged : P → P → Meeting) (root later : Root P) (under others : M.State → M.State)
        (old begun now old' begun' : DiskTold) (state state' : M.State) (offset offset' sure : ℕ)
        (h : List (Entry M.Call)) (unkept : Option (Option Lost))
        → AreOnlyLimits (reading_of F.root_codec F.record_codec M.opening M.next M.adopt) under
        → ((s : M.State) → others (under s) ≡ others s)
        → (run : BegunIn (reading_of F.root_codec F.record_codec M.opening M.next M.adopt) judged root under old begun
        state offset)
        → IsLegal M.next state h → KeptIn F.codec offset begun now h sure unkept
        → MayLeave now.file old'.file.seen
        → BegunIn (reading_of F.root_codec F.record_codec M.opening M.next M.adopt) judged later others old' begun'
        state' offset'
        → judged run.replay.people later.people ≡ Same
        → IsStateBehind M.next others state h sure unkept state' }
    ensures changed { EntriesAreRecords F.codec F.record_codec
        → (judged : P → P → Meeting) (root later : Root P) (under others : M.State → M.State)
        (old begun now old' begun' : DiskTold) (state state' : M.State) (offset offset' sure : ℕ)
        (h : List (Entry M.Call)) (unkept : Option (Option Lost))
        → AreOnlyLimits (reading_of F.root_codec F.record_codec M.opening M.next M.adopt) under
        → ((s : M.State) → others (M.adopt (under s) later.people) ≡ others (M.adopt s later.people))
        → (run : BegunIn (reading_of F.root_codec F.record_codec M.opening M.next M.adopt) judged root under old begun
        state offset)
        → IsLegal M.next state h → KeptIn F.codec offset begun now h sure unkept
        → MayLeave now.file old'.file.seen
        → BegunIn (reading_of F.root_codec F.record_codec M.opening M.next M.adopt) judged later others old' begun'
        state' offset'
        → judged run.replay.people later.people ≡ Changed
        → IsStateBehind M.next (λ s. others (M.adopt s later.people)) state h sure unkept state' }
{
    run_begins_with_replay::<M, P, F>();
    run_leaves_replay::<M, P, F>();
}
