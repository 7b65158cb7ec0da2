//! The steps of a writer: the turn, and the version at home.
ghost use mathlib.Core.List.{IsPrefix};
ghost use Rattle.std.specs.Prelude.{◌≡◌, ℕ, ◌+◌, ◌<◌, ◌≤◌, List, [], ◌∷◌, ◌++◌, drop, length, Some, None};
ghost use Rattle.std.specs.Arc.{arc_value};
ghost use Rattle.desk_model.specs.declared.entry.Entry.{Entry};
ghost use Rattle.desk_lock.specs.declared.board.Turn.TheVariants.{NoTurn, HasTurn};
ghost use Rattle.desk_lock.specs.declared.board.Hold.TheVariants.{NoShelf};
ghost use Rattle.desk_lock.specs.Numbers.{by};
ghost use Rattle.desk_lock.specs.Board.{IsSized, IsBroken, AtHome, KeepsSince, Settled};
ghost use Rattle.desk_lock.specs.Seats.{IsIdle};
ghost use Rattle.desk_lock.specs.Steps.{Has, IsOpen, settled_of};
ghost use Rattle.desk_lock.specs.Words.{HasFailed, Since};

use crate::board::{COUNT, HOME, Laid, Place, ROUNDS, Store, TURN, Top};
use crate::failure::Failure;
use crate::plays::{Claim, Commit, Count, Learn, Release};
use crate::queue::Queues;
use crate::shelf::show;
use desk_model::{Keeper, Machine, Version};
use std::snapshot::Snapshot;
use std::sync::{Arc, Wait};

// Takes the turn.
fn claim<M: Machine, K: Keeper<M>, R: Wait>(
    rt: &R,
    top: &Top<M, K>,
    queues: &Queues<M, K>,
    place: &mut Place<M, K>,
)
    requires table { (place.old.table_id ≡ top.now.table_id) × IsSized top.now.table_id }
    requires ready { (place.old.me.0.live ≡ 1) × IsIdle place.old.me.0 × (place.old.me.1 ≡ []) }
    ensures seat { (place.new.table_id ≡ place.old.table_id) × (place.new.id ≡ place.old.id) }
    ensures had { Has (KeepsSince K.stands K.went K.faults) place.old.me place.new.me }
{
    for _ in rt.forever() {
        if top.compare_exchange::<Claim<M, K>>(place, TURN, 0, 1) == 0 {
            return;
        }
        queues.turn.wait(rt, top, TURN);
    }
    unreachable!()
}

/// Takes the turn, and the version out of its home.
pub(crate) fn open<M: Machine, K: Keeper<M>, R: Wait>(
    rt: &R,
    top: &Top<M, K>,
    queues: &Queues<M, K>,
    place: &mut Place<M, K>,
) -> Laid<Arc<Version<M>>, K>
    requires table { (place.old.table_id ≡ top.now.table_id) × IsSized top.now.table_id }
    requires ready { (place.old.me.0.live ≡ 1) × IsIdle place.old.me.0 × (place.old.me.1 ≡ []) }
    ensures seat { (place.new.table_id ≡ place.old.table_id) × (place.new.id ≡ place.old.id) }
    ensures had { (g : List (Entry M.Call)) × IsOpen place.old.me (arc_value result.version) g place.new.me
        × AtHome (KeepsSince K.stands K.went K.faults) place.old.me.0.keeper result g }
{
    claim(rt, top, queues, place);
    let Some(laid) = top.exchange(place, HOME, None) else {
        unreachable!()
    };
    laid
}

/// The history is then seen.
pub(crate) fn learn<M: Machine, K: Keeper<M>>(
    top: &Top<M, K>,
    place: &mut Place<M, K>,
    version: &Arc<Version<M>>,
)
    requires table { (place.old.table_id ≡ top.now.table_id) × IsSized top.now.table_id }
    requires out { (g : List (Entry M.Call)) × (place.old.me.0.turn ≡ HasTurn (arc_value version.now).journal g) }
    ensures seat { (place.new.table_id ≡ place.old.table_id) × (place.new.id ≡ place.old.id) }
    ensures seen { place.new.me
        ≡ (
          record place.old.me.0 { seen = (arc_value version.now).journal; told = []; told_sure = 0 },
          place.old.me.1,
        ) }
{
    let _ = version;
    top.load::<Learn<M, K>>(place, COUNT);
}

/// Puts the version back into its home, and gives the turn back.
pub(crate) fn shut<M: Machine, K: Keeper<M>>(
    top: &Top<M, K>,
    queues: &Queues<M, K>,
    place: &mut Place<M, K>,
    laid: Laid<Arc<Version<M>>, K>,
)
    requires table { (place.old.table_id ≡ top.now.table_id) × IsSized top.now.table_id }
    requires out { (g : List (Entry M.Call)) × (place.old.me.0.turn ≡ HasTurn (arc_value laid.version).journal g)
        × (Some (arc_value laid.version).opening ≡ place.old.me.0.origin) × (place.old.me.1 ≡ (0, None) ∷ [])
        × AtHome (KeepsSince K.stands K.went K.faults) place.old.me.0.keeper laid g }
    ensures seat { (place.new.table_id ≡ place.old.table_id) × (place.new.id ≡ place.old.id) }
    ensures idle { place.new.me ≡ (record place.old.me.0 { turn = NoTurn }, []) }
{
    let None = top.exchange(place, HOME, Some(laid)) else {
        unreachable!()
    };
    top.store::<Release<M, K>>(place, TURN, 0);
    queues.turn.call(top, TURN);
}

/// Makes the version, one entry longer, the history.
pub(crate) fn commit<M: Machine, K: Keeper<M>>(
    top: &Top<M, K>,
    place: &mut Place<M, K>,
    version: Arc<Version<M>>,
) -> Arc<Version<M>>
    requires table { (place.old.table_id ≡ top.now.table_id) × IsSized top.now.table_id }
    requires out { (h : List (Entry M.Call)) × (g : List (Entry M.Call)) × (e : Entry M.Call)
        × (place.old.me.0.turn ≡ HasTurn h g) × (place.old.me.1 ≡ (0, None) ∷ [])
        × ((arc_value version).journal ≡ h ++ e ∷ []) × (e.session ≡ place.old.me.0.number)
        × (e.serial ≡ length place.old.me.0.own) }
    ensures seat { (place.new.table_id ≡ place.old.table_id) × (place.new.id ≡ place.old.id) }
    ensures same { result ≡ version }
    ensures done { place.new.me
        ≡ (
          record place.old.me.0 {
            seen = (arc_value version).journal;
            told = [];
            told_sure = 0;
            own = by place.old.me.0.number (drop place.old.me.0.start (arc_value version).journal);
            turn = HasTurn (arc_value version).journal (settled_of place.old.me.0.turn);
          },
          (0, None) ∷ [],
        ) }
{
    let _len = version.len();
    let laid = Laid {
        version,
        again: None,
        settled: 0,
        store: Store::Absent,
    };
    let None = top.exchange(place, HOME, Some(laid)) else {
        unreachable!()
    };
    top.fetch_add::<Commit<M, K>>(place, COUNT, 1);
    let Some(laid) = top.exchange(place, HOME, None) else {
        unreachable!()
    };
    laid.version
}

// Counts a batch that has ended, and wakes all who wait for one.
fn round<M: Machine, K: Keeper<M>>(top: &Top<M, K>, queues: &Queues<M, K>, place: &mut Place<M, K>)
    requires table { (place.old.table_id ≡ top.now.table_id) × IsSized top.now.table_id }
    ensures seat { (place.new.table_id ≡ place.old.table_id) × (place.new.id ≡ place.old.id) }
    ensures same { place.new.me ≡ place.old.me }
{
    top.fetch_add::<Count<M, K>>(place, ROUNDS, 1);
    queues.rounds.call_all(top, ROUNDS);
}

// Keeps what is owed, puts the version on the shelf, and gives the turn back.
fn settle<M: Machine, K: Keeper<M>, R: Wait>(
    rt: &R,
    top: &Top<M, K>,
    queues: &Queues<M, K>,
    place: &mut Place<M, K>,
    start: u64,
    version: Arc<Version<M>>,
    again: Arc<Version<M>>,
    settled: u64,
    mut keeper: K,
)
    requires table { (place.old.table_id ≡ top.now.table_id) × IsSized top.now.table_id }
    requires live { (place.old.me.0.live ≡ 1) × (place.old.me.0.shelf ≡ NoShelf) }
    requires start { (start ≡ place.old.me.0.start) × (start ≤ length (arc_value version).journal) }
    requires same { arc_value again ≡ arc_value version }
    requires out { (g : List (Entry M.Call)) × (first : K)
        × (place.old.me.0.turn ≡ HasTurn (arc_value version).journal g)
        × (Some (arc_value version).opening ≡ place.old.me.0.origin) × (place.old.me.1 ≡ (0, None) ∷ [])
        × IsPrefix g (arc_value version).journal × (settled ≡ length g) × (place.old.me.0.keeper ≡ Some first)
        × Since K.stands K.went first keeper settled g }
    ensures seat { (place.new.table_id ≡ place.old.table_id) × (place.new.id ≡ place.old.id) }
    ensures idle { place.new.me ≡ (record place.old.me.0 { turn = NoTurn }, []) }
{
    let len = version.len();
    match keeper.keep(&version, settled) {
        Ok(()) => {
            show(rt, top, queues, place, again, len - start);
            let laid = Laid {
                version,
                again: None,
                settled: len,
                store: Store::Whole(keeper),
            };
            shut(top, queues, place, laid);
        }
        Err(_) => {
            queues.set_broken(rt, Failure::new());
            let laid = Laid {
                version,
                again: Some(again),
                settled,
                store: Store::Broken(keeper),
            };
            shut(top, queues, place, laid);
        }
    }
    round(top, queues, place);
}

/// Gives the turn back: to another writer that is seen to wait for it, who then settles what is owed or leaves it to the next; or after what is owed
/// is settled.
pub(crate) fn leave<M: Machine, K: Keeper<M>, R: Wait>(
    rt: &R,
    top: &Top<M, K>,
    queues: &Queues<M, K>,
    place: &mut Place<M, K>,
    start: u64,
    laid: Laid<Arc<Version<M>>, K>,
)
    requires table { (place.old.table_id ≡ top.now.table_id) × IsSized top.now.table_id }
    requires live { (place.old.me.0.live ≡ 1) × (place.old.me.0.shelf ≡ NoShelf) }
    requires start { (start ≡ place.old.me.0.start) × (start ≤ length (arc_value laid.version).journal) }
    requires out { (g : List (Entry M.Call)) × (place.old.me.0.turn ≡ HasTurn (arc_value laid.version).journal g)
        × (Some (arc_value laid.version).opening ≡ place.old.me.0.origin) × (place.old.me.1 ≡ (0, None) ∷ [])
        × IsPrefix g (arc_value laid.version).journal
        × AtHome (KeepsSince K.stands K.went K.faults) place.old.me.0.keeper laid g }
    ensures seat { (place.new.table_id ≡ place.old.table_id) × (place.new.id ≡ place.old.id) }
    ensures idle { place.new.me ≡ (record place.old.me.0 { turn = NoTurn }, []) }
{
    if queues.turn.is_waited_in() && queues.hands_on() {
        shut(top, queues, place, laid);
        return;
    }
    let Laid {
        version,
        again,
        settled,
        store,
    } = laid;
    let Some(again) = again else {
        let laid = Laid {
            version,
            again: None,
            settled,
            store,
        };
        shut(top, queues, place, laid);
        return;
    };
    match store {
        Store::Whole(keeper) => settle(
            rt, top, queues, place, start, version, again, settled, keeper,
        ),
        store => {
            let laid = Laid {
                version,
                again: Some(again),
                settled,
                store,
            };
            shut(top, queues, place, laid);
        }
    }
}

/// Keeps what is still owed as the lock is closed, which began with the first keeper.
pub(crate) fn settle_rest<M: Machine, K: Keeper<M>>(
    first: &Snapshot<K>,
    version: &Arc<Version<M>>,
    settled: u64,
    store: Store<K>,
) -> Store<K>
    requires home { (g : List (Entry M.Call)) × IsPrefix g (arc_value version.now).journal × (settled ≡ length g)
        × KeepsSince K.stands K.went K.faults first.now.value store g (arc_value version.now).journal }
    ensures settled { Settled (Since K.stands K.went first.now.value) result (arc_value version.now).journal settled }
    ensures failed { IsBroken result → HasFailed K.faults }
{
    let _ = first;
    match store {
        Store::Whole(mut keeper) => {
            if settled == version.len() {
                return Store::Whole(keeper);
            }
            match keeper.keep(version, settled) {
                Ok(()) => Store::Whole(keeper),
                Err(_) => Store::Broken(keeper),
            }
        }
        store => store,
    }
}
