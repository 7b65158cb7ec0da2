//! What each step on the table tells.
ghost use Rattle.desk_lock.specs.Steps.{claimed, learned, committed, released, claimed_shelf, looked, assured, stayed, stored, released_shelf, caught};
ghost use Rattle.desk_lock.specs.Board.{KeepsSince};
ghost use Rattle.desk_lock.specs.Seats.{blank, parent, child, helper, told_by, took_in};

use crate::board::{Laid, View};
use atomic_table::{Join, Play, Split};
use desk_model::{Keeper, Machine, Version};
use std::marker::PhantomData;
use std::sync::Arc;

/// Takes the turn, if it is free.
pub(crate) struct Claim<M, K> {
    machine: PhantomData<(M, K)>,
}

impl<M: Machine, K: Keeper<M>> Play<Option<Laid<Arc<Version<M>>, K>>, View<M::State, M::Call, K>>
    for Claim<M, K> {
    ghost then = { claimed (KeepsSince K.stands K.went K.faults) };
}

/// Sees the history, with the turn.
pub(crate) struct Learn<M, K> {
    machine: PhantomData<(M, K)>,
}

impl<M: Machine, K: Keeper<M>> Play<Option<Laid<Arc<Version<M>>, K>>, View<M::State, M::Call, K>>
    for Learn<M, K> {
    ghost then = { learned };
}

/// Makes the entry the history's.
pub(crate) struct Commit<M, K> {
    machine: PhantomData<(M, K)>,
}

impl<M: Machine, K: Keeper<M>> Play<Option<Laid<Arc<Version<M>>, K>>, View<M::State, M::Call, K>>
    for Commit<M, K> {
    ghost then = { committed };
}

/// Gives the turn back.
pub(crate) struct Release<M, K> {
    machine: PhantomData<(M, K)>,
}

impl<M: Machine, K: Keeper<M>> Play<Option<Laid<Arc<Version<M>>, K>>, View<M::State, M::Call, K>>
    for Release<M, K> {
    ghost then = { released };
}

/// Takes the shelf, if it is free.
pub(crate) struct ClaimShelf<M, K> {
    machine: PhantomData<(M, K)>,
}

impl<M: Machine, K: Keeper<M>> Play<Option<Laid<Arc<Version<M>>, K>>, View<M::State, M::Call, K>>
    for ClaimShelf<M, K> {
    ghost then = { claimed_shelf };
}

/// Sees what stands on the shelf.
pub(crate) struct LookAtShelf<M, K> {
    machine: PhantomData<(M, K)>,
}

impl<M: Machine, K: Keeper<M>> Play<Option<Laid<Arc<Version<M>>, K>>, View<M::State, M::Call, K>>
    for LookAtShelf<M, K> {
    ghost then = { looked };
}

/// Learns how much is settled.
pub(crate) struct Assure<M, K> {
    machine: PhantomData<(M, K)>,
}

impl<M: Machine, K: Keeper<M>> Play<Option<Laid<Arc<Version<M>>, K>>, View<M::State, M::Call, K>>
    for Assure<M, K> {
    ghost then = { assured };
}

/// Counts a batch that has ended.
pub(crate) struct Count<M, K> {
    machine: PhantomData<(M, K)>,
}

impl<M: Machine, K: Keeper<M>> Play<Option<Laid<Arc<Version<M>>, K>>, View<M::State, M::Call, K>>
    for Count<M, K> {
    ghost then = { stayed };
}

/// Says that the shelf gets the history.
pub(crate) struct StoreShelf<M, K> {
    machine: PhantomData<(M, K)>,
}

impl<M: Machine, K: Keeper<M>> Play<Option<Laid<Arc<Version<M>>, K>>, View<M::State, M::Call, K>>
    for StoreShelf<M, K> {
    ghost then = { stored };
}

/// Gives the shelf back.
pub(crate) struct ReleaseShelf<M, K> {
    machine: PhantomData<(M, K)>,
}

impl<M: Machine, K: Keeper<M>> Play<Option<Laid<Arc<Version<M>>, K>>, View<M::State, M::Call, K>>
    for ReleaseShelf<M, K> {
    ghost then = { released_shelf };
}

/// Sees what it was told.
pub(crate) struct CatchUp<M, K> {
    machine: PhantomData<(M, K)>,
}

impl<M: Machine, K: Keeper<M>> Play<Option<Laid<Arc<Version<M>>, K>>, View<M::State, M::Call, K>>
    for CatchUp<M, K> {
    ghost then = { caught };
}

/// Makes another pass.
pub(crate) struct Bear;

impl<S, C, K> Split<View<S, C, K>> for Bear {
    ghost left = { parent };

    ghost right = { child };
}

/// Makes a helper.
pub(crate) struct Help;

impl<S, C, K> Split<View<S, C, K>> for Help {
    ghost left = { λ v. v };

    ghost right = { helper };
}

/// Is told by a helper what its pass has seen.
pub(crate) struct Tell;

impl<S, C, K> Join<View<S, C, K>> for Tell {
    ghost both = { told_by };

    ghost spent = { blank };
}

/// Takes in a pass that has ended.
pub(crate) struct TakeIn;

impl<S, C, K> Join<View<S, C, K>> for TakeIn {
    ghost both = { took_in };

    ghost spent = { blank };
}
