//! Marks of sessions that are over: a thread sets the one of its row, and the calling thread takes it off.
use std::sync::{Condvar, Mutex, Wait};

/// A mark for each row, that its session is over.
#[derive(Drop)]
pub(crate) struct Marks {
    marks: Mutex<[bool; 64]>,
    set: Condvar,
}

impl Marks {
    pub(crate) fn new() -> Marks {
        Marks {
            marks: Mutex::new([false; 64]),
            set: Condvar::new(),
        }
    }

    /// Sets the mark of a row.
    pub(crate) fn set<R: Wait>(&self, rt: &R, row: usize) {
        let mut marks = self.marks.lock(rt);
        if row < 64 {
            marks[row] = true;
        }
        drop(marks);
        self.set.notify_one();
    }

    /// Waits for a mark, and takes it off.
    pub(crate) fn take<R: Wait>(&self, rt: &R) -> usize {
        let mut marks = self.marks.lock(rt);
        for _ in rt.forever() {
            for row in 0..64 {
                if marks[row] {
                    marks[row] = false;
                    return row;
                }
            }
            marks = self.set.wait(rt, marks);
        }
        unreachable!()
    }
}
