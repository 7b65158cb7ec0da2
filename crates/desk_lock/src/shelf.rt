//! The steps at the shelf, of those who look and of a writer that has committed.
ghost use Rattle.std.specs.Prelude.{◌≡◌, ℕ, ◌+◌, ◌<◌, ◌≤◌, true, false, List, [], ◌∷◌, ◌++◌, length, Some, None};
ghost use Rattle.std.specs.Arc.{arc_value};
ghost use Rattle.desk_lock.specs.declared.board.Turn.TheVariants.{HasTurn};
ghost use Rattle.desk_lock.specs.declared.board.Hold.TheVariants.{NoShelf, HasShelf};
ghost use Rattle.desk_lock.specs.Board.{IsSized};
ghost use Rattle.desk_lock.specs.Steps.{HasIt, IsTaken, IsSurer};
ghost use Rattle.desk_lock.specs.Words.{HasFailed};
ghost use Rattle.atomic_table.specs.Table.{rest};

use crate::board::{Laid, Place, ROUNDS, SHELF, SHELF_NUMBER, SHELVED, Store, Top};
use crate::plays::{Assure, ClaimShelf, LookAtShelf, ReleaseShelf, StoreShelf};
use crate::queue::Queues;
use desk_model::{Keeper, Machine, Version};
use std::sync::{Arc, Wait};

// Takes the shelf, with the version that stands on it.
fn claim_shelf<M: Machine, K: Keeper<M>, R: Wait>(
    rt: &R,
    top: &Top<M, K>,
    queues: &Queues<M, K>,
    place: &mut Place<M, K>,
)
    requires table { (place.old.table_id ≡ top.now.table_id) × IsSized top.now.table_id }
    requires ready { (place.old.me.0.live ≡ 1) × (place.old.me.0.shelf ≡ NoShelf) }
    ensures seat { (place.new.table_id ≡ place.old.table_id) × (place.new.id ≡ place.old.id) }
    ensures had { HasIt place.old.me place.new.me }
{
    for _ in rt.forever() {
        if top.compare_exchange::<ClaimShelf<M, K>>(place, SHELF, 0, 1) == 0 {
            return;
        }
        queues.shelf.wait(rt, top, SHELF);
    }
    unreachable!()
}

/// Takes the shelf, and the version that stands on it.
pub(crate) fn open_shelf<M: Machine, K: Keeper<M>, R: Wait>(
    rt: &R,
    top: &Top<M, K>,
    queues: &Queues<M, K>,
    place: &mut Place<M, K>,
) -> Arc<Version<M>>
    requires table { (place.old.table_id ≡ top.now.table_id) × IsSized top.now.table_id }
    requires ready { (place.old.me.0.live ≡ 1) × (place.old.me.0.shelf ≡ NoShelf) }
    ensures seat { (place.new.table_id ≡ place.old.table_id) × (place.new.id ≡ place.old.id) }
    ensures had { IsTaken place.old.me (arc_value result) place.new.me }
{
    claim_shelf(rt, top, queues, place);
    let Some(laid) = top.exchange(place, SHELVED, None) else {
        unreachable!()
    };
    laid.version
}

/// What stood on the shelf is then seen.
pub(crate) fn look_at_shelf<M: Machine, K: Keeper<M>>(
    top: &Top<M, K>,
    place: &mut Place<M, K>,
    version: &Arc<Version<M>>,
)
    requires table { (place.old.table_id ≡ top.now.table_id) × IsSized top.now.table_id }
    requires out { place.old.me.0.shelf ≡ HasShelf (arc_value version.now).journal }
    ensures seat { (place.new.table_id ≡ place.old.table_id) × (place.new.id ≡ place.old.id) }
    ensures seen { place.new.me
        ≡ (
          record place.old.me.0 {
            seen = (arc_value version.now).journal;
            sure = length (arc_value version.now).journal;
            told = [];
            told_sure = 0;
          },
          place.old.me.1,
        ) }
{
    let _ = version;
    top.load::<LookAtShelf<M, K>>(place, SHELF_NUMBER);
}

/// Puts the version on the shelf, and gives the shelf back.
pub(crate) fn shut_shelf<M: Machine, K: Keeper<M>>(
    top: &Top<M, K>,
    queues: &Queues<M, K>,
    place: &mut Place<M, K>,
    version: Arc<Version<M>>,
)
    requires table { (place.old.table_id ≡ top.now.table_id) × IsSized top.now.table_id }
    requires out { (place.old.me.0.shelf ≡ HasShelf (arc_value version).journal)
        × (Some (arc_value version).opening ≡ place.old.me.0.origin)
        × (place.old.me.1 ≡ (1, None) ∷ rest place.old.me.1) }
    ensures seat { (place.new.table_id ≡ place.old.table_id) × (place.new.id ≡ place.old.id) }
    ensures idle { place.new.me ≡ (record place.old.me.0 { shelf = NoShelf }, rest place.old.me.1) }
{
    let laid = Laid {
        version,
        again: None,
        settled: 0,
        store: Store::Absent,
    };
    let None = top.exchange(place, SHELVED, Some(laid)) else {
        unreachable!()
    };
    top.store::<ReleaseShelf<M, K>>(place, SHELF, 0);
    queues.shelf.call(top, SHELF);
}

// Stores the shelf's number.
fn store_number<M: Machine, K: Keeper<M>>(
    top: &Top<M, K>,
    place: &mut Place<M, K>,
    number: u64,
    version: &Arc<Version<M>>,
)
    requires table { (place.old.table_id ≡ top.now.table_id) × IsSized top.now.table_id }
    requires out { ((p : List _) × (place.old.me.0.turn ≡ HasTurn (arc_value version.now).journal p))
        × ((g : List _) × (place.old.me.0.shelf ≡ HasShelf g)) }
    requires number { length (arc_value version.now).journal ≡ place.old.me.0.start + number }
    ensures seat { (place.new.table_id ≡ place.old.table_id) × (place.new.id ≡ place.old.id) }
    ensures stored { place.new.me
        ≡ (
          record place.old.me.0 {
            turn = HasTurn (arc_value version.now).journal (arc_value version.now).journal;
            shelf = HasShelf (arc_value version.now).journal;
          },
          place.old.me.1,
        ) }
{
    let _ = version;
    top.store::<StoreShelf<M, K>>(place, SHELF_NUMBER, number);
}

/// How many entries past the lock's beginning are settled.
pub(crate) fn assure<M: Machine, K: Keeper<M>>(top: &Top<M, K>, place: &mut Place<M, K>) -> u64
    requires table { (place.old.table_id ≡ top.now.table_id) × IsSized top.now.table_id }
    requires live { place.old.me.0.live ≡ 1 }
    ensures seat { (place.new.table_id ≡ place.old.table_id) × (place.new.id ≡ place.old.id) }
    ensures sure { place.new.me ≡ (record place.old.me.0 { sure = place.old.me.0.start + result }, place.old.me.1) }
    ensures later { place.old.me.0.sure ≤ place.old.me.0.start + result }
{
    top.load::<Assure<M, K>>(place, SHELF_NUMBER)
}

/// Waits until so many entries past the lock's beginning are settled. False: the keeper has failed before.
pub(crate) fn wait_for<M: Machine, K: Keeper<M>, R: Wait>(
    rt: &R,
    top: &Top<M, K>,
    queues: &Queues<M, K>,
    place: &mut Place<M, K>,
    owed: u64,
) -> bool
    requires table { (place.old.table_id ≡ top.now.table_id) × IsSized top.now.table_id }
    requires live { place.old.me.0.live ≡ 1 }
    ensures seat { (place.new.table_id ≡ place.old.table_id) × (place.new.id ≡ place.old.id) }
    ensures sure { IsSurer place.old.me place.new.me }
    ensures settled { result ≡ true → place.old.me.0.start + owed ≤ place.new.me.0.sure }
    ensures failed { result ≡ false → HasFailed K.faults }
{
    for _ in rt.forever() {
        let round = top.peek(ROUNDS);
        if owed <= assure(top, place) {
            return true;
        }
        if queues.is_broken(rt) {
            return false;
        }
        queues
            .rounds
            .sleep(rt, top, ROUNDS, (round % (1 << 32)) as u32);
    }
    unreachable!()
}

/// The turn's holder, at whose keeper the version stands, puts it on the shelf. The version that stood there is let go last.
pub(crate) fn show<M: Machine, K: Keeper<M>, R: Wait>(
    rt: &R,
    top: &Top<M, K>,
    queues: &Queues<M, K>,
    place: &mut Place<M, K>,
    version: Arc<Version<M>>,
    number: u64,
)
    requires table { (place.old.table_id ≡ top.now.table_id) × IsSized top.now.table_id }
    requires ready { (place.old.me.0.live ≡ 1) × (place.old.me.0.shelf ≡ NoShelf) }
    requires out { ((p : List _) × (place.old.me.0.turn ≡ HasTurn (arc_value version).journal p))
        × (Some (arc_value version).opening ≡ place.old.me.0.origin) }
    requires number { length (arc_value version).journal ≡ place.old.me.0.start + number }
    ensures seat { (place.new.table_id ≡ place.old.table_id) × (place.new.id ≡ place.old.id) }
    ensures shown { place.new.me
        ≡ (
          record place.old.me.0 { turn = HasTurn (arc_value version).journal (arc_value version).journal },
          place.old.me.1,
        ) }
{
    let _before = open_shelf(rt, top, queues, place);
    store_number(top, place, number, &version);
    shut_shelf(top, queues, place, version);
}
