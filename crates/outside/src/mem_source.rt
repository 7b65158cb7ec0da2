//! A source over bytes in memory.
ghost use Rattle.std.specs.Prelude.{◌≡◌, ◌+◌, ◌-◌, ◌≤◌, ◌<◌, ℕ, List, [], length, IfOk, is_err, true, false, take, drop, min, refl, if◌then◌else◌};
ghost use Rattle.outside.specs.Memory.{MemSourceTold, source_told, is_listed, counted};
ghost use Rattle.outside.specs.Outside.{Reads, HasCause, nothing_beside_source};

use crate::traits::{Failed, Source};
use std::alloc::{AllocError, Global};
use std::marker::Model;

/// A source over bytes in memory. Its reads whose numbers are listed fail, and no others.
#[derive(Drop)]
pub struct MemSource {
    bytes: Vec<u8>,
    at: usize,
    failing: Vec<u64>,
    calls: u64,
    faults: u64,
    ended: bool,
}

impl Model for MemSource {
    ghost use Rattle.std.specs.Prelude.{◌≡◌, ◌≤◌, true, length, take, drop};
    ghost use Rattle.outside.specs.Memory.{MemSourceTold};

    ghost Value = { MemSourceTold };

    ghost view = { λ s. record {
      left = drop s.at s.bytes.items;
      given = take s.at s.bytes.items;
      ended = s.ended;
      faults = s.faults;
      failing = s.failing.items;
      calls = s.calls;
    } };

    ghost invariant = { λ s. (s.at ≤ length s.bytes.items) × (s.ended ≡ true → length s.bytes.items ≤ s.at) };
}

impl MemSource {
    /// A source with these bytes left, whose reads with these numbers fail, counted from 0.
    pub fn new(alloc: Global, left: &[u8], reads: &[u64]) -> Result<MemSource, AllocError>
        ensures { IfOk result (λ source. source ≡ record {
          left = left.now;
          given = [];
          ended = false;
          faults = 0;
          failing = reads.now;
          calls = 0;
        }) }
    {
        let bytes = Vec::from_slice(alloc, left)?;
        let failing = Vec::from_slice(alloc, reads)?;
        Ok(MemSource {
            bytes,
            at: 0,
            failing,
            calls: 0,
            faults: 0,
            ended: false,
        })
    }

    /// The bytes that are left.
    pub fn left(&self) -> &[u8]
        ensures { result.now ≡ self.now.left }
    {
        &self.bytes[self.at..]
    }
}

// Copies as many bytes as there are from at on, and fit, and says how many.
fn fill(room: &mut [u8], bytes: &Vec<u8>, at: usize) -> usize
    requires { at ≤ length bytes.now.items }
    ensures count { result ≡ min (length room.old) (length (drop at bytes.now.items)) }
    ensures bytes { take result room.new ≡ take result (drop at bytes.now.items) }
{
    let from = &bytes[at..];
    let count = room.len().min(from.len());
    room[..count].copy_from_slice(&from[..count]);
    count
}

impl Source for MemSource {
    ghost told = { source_told };

    ghost aside = { λ _. nothing_beside_source };

    ghost end_is_empty = { λ s e. rw e refl };

    fn read(&mut self, room: &mut [u8]) -> Result<usize, Failed>
        requires { 0 < length room.old }
        ensures bound { IfOk result (λ n. n ≤ length room.new) }
        ensures bytes { Reads (source_told self.old) (source_told self.new) result room.new }
        ensures cause { HasCause self.old.faults self.new.faults result }
        ensures fails { is_err result ≡ is_listed self.old.failing self.old.calls }
        ensures whole { IfOk result (λ n. n ≡ min (length room.old) (length self.old.left)) }
        ensures faults { self.new.faults ≡ (if is_listed self.old.failing self.old.calls then counted self.old.faults
            else self.old.faults) }
        ensures calls { self.new.calls ≡ counted self.old.calls }
        ensures failing { self.new.failing ≡ self.old.failing }
    {
        let call = self.calls;
        self.calls = call.saturating_add(1);
        if self.failing.as_slice().contains(&call) {
            self.faults = self.faults.saturating_add(1);
            return Err(Failed);
        }
        let count = fill(room, &self.bytes, self.at);
        self.at += count;
        if count == 0 {
            self.ended = true;
        }
        Ok(count)
    }
}
