//! The table of the lock.
//! Word 0 is the history's length past the lock's beginning, word 1 is 1 while a pass has the turn, word 2 is 1 while a pass has the shelf,
//! word 3 is the length past the beginning of the journal on the shelf, and word 4 counts the batches that have ended. Slot 0 is the version's home, slot 1 the shelf.
ghost use Rattle.std.specs.Prelude.{◌≡◌};

use atomic_table::{Seat, Shared, Table, TableRule};
use desk_model::{Entry, Keeper, Machine, Version};
use std::alloc::Global;
use std::collections::LinkedList;
use std::marker::{Model, PhantomData};
use std::snapshot::Snapshot;
use std::sync::Arc;

/// The word that counts the history.
pub(crate) const COUNT: usize = 0;
/// The word that is 1 while a pass has the turn.
pub(crate) const TURN: usize = 1;
/// The word that is 1 while a pass has the shelf.
pub(crate) const SHELF: usize = 2;
/// The word that counts the journal on the shelf.
pub(crate) const SHELF_NUMBER: usize = 3;
/// The word that counts the batches that have ended.
pub(crate) const ROUNDS: usize = 4;
/// The slot in which the version is at home.
pub(crate) const HOME: usize = 0;
/// The slot of the version on the shelf.
pub(crate) const SHELVED: usize = 1;

/// The keeper of the journal, where it lies: none on the shelf; at home one that keeps, or one that has failed.
#[derive(Drop)]
pub enum Store<K> {
    Absent,
    Whole(K),
    Broken(K),
}

/// What lies in a slot: a version, and at home the keeper of its journal.
#[derive(Drop)]
pub struct Laid<V, K> {
    pub version: V,
    /// The same version once more, while the shelf is behind it.
    pub again: Option<V>,
    /// The length of what is settled.
    pub settled: u64,
    pub store: Store<K>,
}

/// How far a seat is with the turn.
pub enum Turn<C> {
    NoTurn,
    /// It has the turn, this is the history, and this is what is settled of it.
    HasTurn(LinkedList<Entry<C>>, LinkedList<Entry<C>>),
}

/// How far a seat is with the shelf.
pub enum Hold<C> {
    NoShelf,
    /// It has the shelf, on which this journal stands.
    HasShelf(LinkedList<Entry<C>>),
}

/// What a lock begins with.
#[derive(Drop)]
pub struct Begun<M: Machine, K> {
    pub(crate) version: Snapshot<Version<M>>,
    pub(crate) keeper: Snapshot<K>,
}

impl<M: Machine, K> Model for Begun<M, K> {
    ghost use Rattle.desk_lock.specs.Seats.{Beginning};

    ghost Value = { Beginning M.State M.Call K };

    ghost view = { λ b. record { version = b.version.value; keeper = b.keeper.value } };
}

impl<M: Machine, K> Begun<M, K> {
    /// A lock begins with this version and this keeper. It takes no memory.
    pub(crate) fn of(version: &Version<M>, keeper: &K) -> Begun<M, K>
        ensures { result ≡ record { version = version.now; keeper = keeper.now } }
    {
        Begun {
            version: Snapshot::of(version),
            keeper: Snapshot::of(keeper),
        }
    }
}

/// What a seat at the table knows. No value of it is made.
pub struct View<S, C, K> {
    /// The lock's opening. A spent seat has none.
    pub origin: Option<S>,
    /// The keeper with which the lock began. A spent seat has none.
    pub keeper: Option<K>,
    /// The journal's length as the lock began.
    pub start: u64,
    /// 1 for a pass, 0 for a helper and for a seat that was joined into another.
    pub live: u64,
    pub number: u64,
    /// How many passes were made, at the first pass, and 0 at others.
    pub made: u64,
    pub seen: LinkedList<Entry<C>>,
    /// So many entries of what it has seen are settled, if not more.
    pub sure: u64,
    /// What another seat had seen.
    pub told: LinkedList<Entry<C>>,
    /// So many entries of what the other had seen are settled.
    pub told_sure: u64,
    pub own: LinkedList<Entry<C>>,
    pub ended: LinkedList<(u64, LinkedList<Entry<C>>)>,
    pub turn: Turn<C>,
    pub shelf: Hold<C>,
}

/// The rule of the table.
pub struct Turns<M, K> {
    machine: PhantomData<(M, K)>,
}

impl<M: Machine, K: Keeper<M>> TableRule<
    Option<Laid<Arc<Version<M>>, K>>,
    View<M::State, M::Call, K>,
    Begun<M, K>,
> for Turns<M, K> {
    ghost use Rattle.desk_lock.specs.Board.{Kept, KeepsSince};
    ghost use Rattle.desk_lock.specs.Seats.{beginner};

    ghost holds = { λ key. Kept (KeepsSince K.stands K.went K.faults) key };

    ghost first = { λ key. beginner key };
}

pub type Board<M, K> = Table<
    Option<Laid<Arc<Version<M>>, K>>,
    View<<M as Machine>::State, <M as Machine>::Call, K>,
    Begun<M, K>,
    Turns<M, K>,
    Global,
>;

pub type Top<M, K> = Shared<
    Option<Laid<Arc<Version<M>>, K>>,
    View<<M as Machine>::State, <M as Machine>::Call, K>,
    Begun<M, K>,
    Turns<M, K>,
>;

pub type Place<M, K> = Seat<
    Option<Laid<Arc<Version<M>>, K>>,
    View<<M as Machine>::State, <M as Machine>::Call, K>,
>;
