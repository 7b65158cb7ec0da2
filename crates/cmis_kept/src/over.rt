//! How a run over a journal in a file ends.
ghost use Rattle.std.specs.Prelude.{◌≡◌, ◌↔◌, ℕ, List, length, IsTrue, IsSome, Some};
ghost use Rattle.outside.specs.Outside.{Rose};
ghost use Rattle.desk_lock.specs.Board.{IsBroken};
ghost use Rattle.desk_model.specs.declared.entry.Entry.{Entry};
ghost use Rattle.desk_model.specs.Histories.{state_of};
ghost use Rattle.journal_keeper.specs.declared.lost.Lost.TheVariants.{Disk};
ghost use Rattle.journal_keeper.specs.Stores.{KeeperTold};
ghost use Rattle.journal_runs.specs.Leaves.{EndsWith, IsOver, KeptIn};
ghost use Rattle.run_status.specs.Status.{summary};
ghost use Rattle.cmis_kept.specs.Kept.{EndsBy};

use crate::ran::Over;
use desk_model::Machine;
use desk_serve::{Closing, HostEnd};
use disk::Disk;
use journal_keeper::{EntryCode, JournalKeeper, Lost};
use journal_runs::{Explains, Left, leave, tell_lost};
use outside::Sink;
use run_status::sum_up;

// Writes how a run ends, and answers its status.
fn ends<O: Sink, K: Explains>(
    output: &mut O,
    disk: &K,
    unkept: Option<Option<Lost>>,
    end: HostEnd,
    sessions: u64,
    steps: u64,
) -> u8
    ensures { EndsBy unkept end (summary sessions steps) (O.told output.old) (O.told output.new) result }
{
    match unkept {
        None => sum_up(output, sessions, steps, end),
        Some(lost) => tell_lost(output, disk, lost),
    }
}

/// What stands once all connections are served, the disk, and the status; the line that tells it is written.
pub(crate) fn over<M: Machine, F: EntryCode<M::Call>, K: Disk + Explains + Drop, O: Sink, L>(
    closing: Closing<M, L, JournalKeeper<K, F>>,
    output: &mut O,
) -> (Over<M, L>, K, u8)
    requires { IsOver K.tells K.told F.codec closing.store }
    ensures same { (result.0.last ≡ closing.last) × (result.0.ended ≡ closing.ended)
        × (result.0.end ≡ closing.end) }
    ensures kept { IsTrue K.tells → (first : KeeperTold K) (entries : List (Entry M.Call)) (sure : ℕ)
        → EndsWith K.tells K.told F.codec first closing.store entries sure → KeptIn F.codec first.offset
        (K.told first.begun) (K.told result.1) entries sure result.0.unkept }
    ensures unkept { IsSome result.0.unkept ↔ IsBroken closing.store }
    ensures failed { (first : KeeperTold K) (entries : List (Entry M.Call)) (sure : ℕ)
        → EndsWith K.tells K.told F.codec first closing.store entries sure → result.0.unkept ≡ Some (Some Disk)
        → Rose (K.told first.begun).faults (K.told result.1).faults }
    ensures status { EndsBy result.0.unkept closing.end
        (summary (length closing.ended) (M.number (state_of M.next closing.last)))
        (O.told output.old) (O.told output.new) result.2 }
{
    let Closing {
        last,
        store,
        ended,
        end,
    } = closing;
    let Left { disk, unkept } = leave::<M::Call, K, F>(store);
    let sessions = ended.len() as u64;
    let steps = last.number();
    let status = ends(output, &disk, unkept, end, sessions, steps);
    let over = Over {
        last,
        ended,
        end,
        unkept,
    };
    (over, disk, status)
}
