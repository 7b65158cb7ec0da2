//! The lock as a desk.
ghost use Rattle.std.specs.Prelude.{◌≡◌, [], ◌∷◌, length, None};
ghost use Rattle.desk_lock.specs.Numbers.{most_passes};
ghost use Rattle.desk_lock.specs.Words.{HasFailed, IsOf, place_of};

use crate::lock::Lock;
use crate::pass::Pass;
use cm_base::number::Moment;
use cm_base::text::Text;
use desk_model::{Desk, Keeper, Machine, Snapshot, Stop};
use outside::Clock;
use std::alloc::{AllocError, Global};
use std::marker::{Model, PhantomData};
use std::sync::Wait;

/// A lock as the desk of one of its passes. It tells no words of the clock, which all passes share.
#[derive(Drop)]
pub struct LockDesk<'a, R: Wait + 'a, M: Machine + 'a, C: Clock + 'a, K: Keeper<M> + 'a> {
    lock: &'a Lock<M, C, K>,
    rt: PhantomData<R>,
}

impl<'a, R: Wait + 'a, M: Machine + 'a, C: Clock + 'a, K: Keeper<M> + 'a> Model
    for LockDesk<'a, R, M, C, K> {
    ghost use Rattle.desk_lock.specs.Words.{LockView};

    ghost Value = { LockView M.State M.Call K };

    ghost view = { λ d. d.lock.now };
}

impl<'a, R: Wait + 'a, M: Machine + 'a, C: Clock + Drop + 'a, K: Keeper<M> + 'a> LockDesk<
    'a,
    R,
    M,
    C,
    K,
> {
    /// The lock as a desk. It takes no memory.
    pub fn new(lock: &'a Lock<M, C, K>) -> LockDesk<'a, R, M, C, K>
        ensures { result ≡ lock.now }
    {
        LockDesk {
            lock,
            rt: PhantomData,
        }
    }
}

impl<'a, R: Wait + 'a, M: Machine + 'a, C: Clock + Drop + 'a, K: Keeper<M> + 'a> Desk
    for LockDesk<'a, R, M, C, K> {
    type Kind = M;

    type Leave = &'a R;

    type Pass = Pass<M, K>;

    ghost is_of = { λ d p. IsOf M.next d p };

    ghost known = { λ p. p.known };

    ghost sure = { λ p. p.sure };

    ghost failed = { λ p. HasFailed K.faults };

    ghost place = { λ p. p.made ∷ length p.ended ∷ place_of p.table };

    ghost words = { λ d. None };

    ghost aside = { λ d. record { sessions = most_passes; stands_for = [] } };

    fn moment(&mut self, leave: &mut &'a R) -> Moment {
        self.lock.moment(*leave)
    }

    fn write(
        &mut self,
        alloc: Global,
        leave: &mut &'a R,
        pass: &mut Pass<M, K>,
        least: u64,
        user: &Text,
        moment: Moment,
        call: M::Call,
    ) -> Result<M::Shown, Stop<M::Cause>> {
        self.lock
            .write(*leave, alloc, pass, least, user, moment, call)
    }

    fn look(
        &mut self,
        leave: &mut &'a R,
        pass: &mut Pass<M, K>,
    ) -> Result<Snapshot<M>, AllocError> {
        self.lock.look(*leave, pass)
    }

    fn session(&self, pass: &Pass<M, K>) -> u32 {
        pass.number()
    }

    ghost below = { λ d p h. h.below };

    ghost sound = { λ d p h. h.sound };
}
