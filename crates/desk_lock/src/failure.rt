//! What is had once a keeper has failed.
ghost use Rattle.desk_lock.specs.Words.{HasFailed};

use desk_model::{Keeper, Machine};
use std::marker::{Model, PhantomData};

/// It is made only where a call of the keeper has failed.
#[derive(Drop)]
pub(crate) struct Failure<M: Machine, K: Keeper<M>> {
    kinds: PhantomData<(M, K)>,
}

impl<M: Machine, K: Keeper<M>> Model for Failure<M, K> {
    ghost use Rattle.std.specs.Prelude.{ℕ};
    ghost use Rattle.desk_lock.specs.Words.{HasFailed};

    ghost Value = { ℕ };

    ghost view = { λ f. 0 };

    ghost invariant = { λ f. HasFailed K.faults };
}

impl<M: Machine, K: Keeper<M>> Failure<M, K> {
    /// The keeper has failed.
    pub(crate) fn new() -> Failure<M, K>
        requires { HasFailed K.faults }
    {
        Failure { kinds: PhantomData }
    }

    /// The keeper has failed.
    pub(crate) fn lawful(&self)
        ensures { HasFailed K.faults }
    {
        let _ = &self.kinds;
    }
}
