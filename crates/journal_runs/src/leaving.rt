//! The end of a run.
ghost use Rattle.std.specs.Prelude.{◌≡◌, ◌↔◌, ℕ, List, IsTrue, IsSome, Some};
ghost use Rattle.outside.specs.Outside.{Rose};
ghost use Rattle.desk_model.specs.declared.entry.Entry.{Entry};
ghost use Rattle.desk_lock.specs.Board.{IsBroken};
ghost use Rattle.journal_keeper.specs.declared.lost.Lost.TheVariants.{Disk};
ghost use Rattle.journal_keeper.specs.Stores.{KeeperTold, disk_of};
ghost use Rattle.journal_runs.specs.Leaves.{EndsWith, IsOver, KeptIn};

use desk_lock::Store;
use disk::Disk;
use journal_keeper::{EntryCode, JournalKeeper, Lost, Store as JournalStore};

/// What a run over a journal leaves.
#[derive(Drop)]
pub struct Left<K> {
    pub disk: K,
    /// Where not all of the run's entries are kept, why, if the keeper tells it.
    pub unkept: Option<Option<Lost>>,
}

/// The disk of a keeper.
pub fn disk_of<K: Disk, F>(keeper: JournalKeeper<K, F>) -> K
    ensures disk { result ≡ disk_of keeper.store }
    ensures stands_for { K.stands_for result ≡ K.stands_for keeper.begun }
{
    match keeper.into_store() {
        JournalStore::Open(journal) => journal.into_disk(),
        JournalStore::Failed(disk) => disk,
    }
}

/// Takes apart the keeper that is left where a run is over. What a crash leaves of the run's entries was known of the keeper.
pub fn leave<C, K: Disk, F: EntryCode<C>>(store: Store<JournalKeeper<K, F>>) -> Left<K>
    requires { IsOver K.tells K.told F.codec store }
    ensures kept { IsTrue K.tells → (first : KeeperTold K) (entries : List (Entry C)) (sure : ℕ)
        → EndsWith K.tells K.told F.codec first store entries sure
        → KeptIn F.codec first.offset (K.told first.begun) (K.told result.disk) entries sure result.unkept }
    ensures unkept { IsSome result.unkept ↔ IsBroken store }
    ensures failed { (first : KeeperTold K) (entries : List (Entry C)) (sure : ℕ)
        → EndsWith K.tells K.told F.codec first store entries sure → result.unkept ≡ Some (Some Disk)
        → Rose (K.told first.begun).faults (K.told result.disk).faults }
    ensures stands_for { (first : KeeperTold K) (entries : List (Entry C)) (sure : ℕ)
        → EndsWith K.tells K.told F.codec first store entries sure
        → K.stands_for result.disk ≡ K.stands_for first.begun }
{
    match store {
        Store::Whole(keeper) => Left {
            disk: disk_of(keeper),
            unkept: None,
        },
        Store::Broken(keeper) => {
            let lost = keeper.lost();
            Left {
                disk: disk_of(keeper),
                unkept: Some(lost),
            }
        }
        Store::Absent => unreachable!(),
    }
}
