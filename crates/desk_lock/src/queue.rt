//! Threads that wait for a word of the table to become 0.
ghost use Rattle.std.specs.Prelude.{◌≡◌, ◌<◌, true};
ghost use Rattle.desk_lock.specs.Board.{IsSized};
ghost use Rattle.desk_lock.specs.Words.{HasFailed};

use crate::board::Top;
use crate::failure::Failure;
use desk_model::{Keeper, Machine};
use std::hint::spin_loop;
use std::sync::atomic::{AtomicU64, Ordering};
use std::sync::{Mutex, Wait};

/// How often a thread looks at a word before it sleeps. A look and its pause take about 50 nanoseconds.
const LOOKS: u32 = 4000;

/// How many threads wait for a word. These are hints: they tell who is to be woken, and a wake that they spare would reach nobody, since a thread
/// that sleeps is counted before the kernel compares the word.
#[derive(Drop)]
pub(crate) struct Queue {
    looking: AtomicU64,
    sleeping: AtomicU64,
}

/// Those who wait for the turn, for the shelf, and for a batch.
#[derive(Drop)]
pub(crate) struct Queues<M: Machine, K: Keeper<M>> {
    pub(crate) turn: Queue,
    pub(crate) shelf: Queue,
    pub(crate) rounds: Queue,
    /// There once the keeper has failed.
    failure: Mutex<Option<Failure<M, K>>>,
    /// Whether what is owed may be left to the next writer.
    batches: bool,
}

impl<M: Machine, K: Keeper<M>> Queues<M, K> {
    /// Nobody waits, and the keeper has not failed.
    pub(crate) fn empty(batches: bool) -> Queues<M, K> {
        Queues {
            turn: Queue::empty(),
            shelf: Queue::empty(),
            rounds: Queue::empty(),
            failure: Mutex::new(None),
            batches,
        }
    }

    /// Whether what is owed may be left to the next writer.
    pub(crate) fn hands_on(&self) -> bool {
        self.batches
    }

    /// Says that the keeper has failed.
    pub(crate) fn set_broken<R: Wait>(&self, rt: &R, failure: Failure<M, K>) {
        let mut kept = self.failure.lock(rt);
        *kept = Some(failure);
    }

    /// Whether the keeper has failed.
    pub(crate) fn is_broken<R: Wait>(&self, rt: &R) -> bool
        ensures { result ≡ true → HasFailed K.faults }
    {
        let kept = self.failure.lock(rt);
        match &*kept {
            Some(failure) => {
                failure.lawful();
                true
            }
            None => false,
        }
    }
}

impl Queue {
    // Nobody waits.
    fn empty() -> Queue {
        Queue {
            looking: AtomicU64::new(0),
            sleeping: AtomicU64::new(0),
        }
    }

    /// Waits for the word to become 0, and may also return before. One thread looks at the word, so that it is not waited for until it wakes;
    /// the others sleep, and go on in their order.
    pub(crate) fn wait<M: Machine, K: Keeper<M>, R: Wait>(
        &self,
        rt: &R,
        top: &Top<M, K>,
        word: usize,
    )
        requires sized { IsSized top.now.table_id }
        requires word { word < 5 }
    {
        let before = self.looking.fetch_add(1, Ordering::SeqCst);
        let is_free = before == 0 && comes_free(top, word);
        self.looking.fetch_sub(1, Ordering::SeqCst);
        if !is_free {
            self.sleeping.fetch_add(1, Ordering::SeqCst);
            top.park(rt, word, 1);
            self.sleeping.fetch_sub(1, Ordering::SeqCst);
        }
    }

    /// Sleeps while the word is this, and may also return before.
    pub(crate) fn sleep<M: Machine, K: Keeper<M>, R: Wait>(
        &self,
        rt: &R,
        top: &Top<M, K>,
        word: usize,
        found: u32,
    )
        requires sized { IsSized top.now.table_id }
        requires word { word < 5 }
    {
        self.sleeping.fetch_add(1, Ordering::SeqCst);
        top.park(rt, word, found);
        self.sleeping.fetch_sub(1, Ordering::SeqCst);
    }

    /// Wakes all that sleep.
    pub(crate) fn call_all<M: Machine, K: Keeper<M>>(&self, top: &Top<M, K>, word: usize)
        requires sized { IsSized top.now.table_id }
        requires word { word < 5 }
    {
        if self.sleeping.load(Ordering::SeqCst) != 0 {
            top.wake_all(word);
        }
    }

    /// Whether a thread is seen to wait.
    pub(crate) fn is_waited_in(&self) -> bool {
        self.looking.load(Ordering::SeqCst) != 0 || self.sleeping.load(Ordering::SeqCst) != 0
    }

    /// Wakes the next one that sleeps. Who looks at the word has it meanwhile, and the one that wakes looks for the next.
    pub(crate) fn call<M: Machine, K: Keeper<M>>(&self, top: &Top<M, K>, word: usize)
        requires sized { IsSized top.now.table_id }
        requires word { word < 5 }
    {
        if self.sleeping.load(Ordering::SeqCst) != 0 {
            top.wake_one(word);
        }
    }
}

// Whether the word is seen to be 0 within so many looks. To wake a thread that sleeps takes longer than a short write.
fn comes_free<M: Machine, K: Keeper<M>>(top: &Top<M, K>, word: usize) -> bool
    requires sized { IsSized top.now.table_id }
    requires word { word < 5 }
{
    for _ in 0..LOOKS {
        if top.peek(word) == 0 {
            return true;
        }
        spin_loop();
    }
    false
}
