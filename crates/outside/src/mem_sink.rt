//! A sink in memory.
ghost use Rattle.std.specs.Prelude.{◌≡◌, ◌+◌, ◌-◌, ◌≤◌, ◌<◌, ◌⊎◌, ℕ, List, [], length, Some, IfOk, OnErr, is_err, true, false, if◌then◌else◌};
ghost use Rattle.outside.specs.Memory.{MemSinkTold, sink_told, is_listed, counted};
ghost use Rattle.outside.specs.Outside.{Writes, HasCause, nothing_beside_sink};

use crate::traits::{Failed, Sink};
use archive::Unread;
use std::alloc::{AllocError, Global};
use std::marker::Model;

/// A sink in memory, which takes each piece whole. Its writes whose numbers are listed fail,
/// and others only where it wants memory; that is a fault like another, and is counted.
#[derive(Drop)]
pub struct MemSink {
    bytes: Vec<u8>,
    failing: Vec<u64>,
    calls: u64,
    faults: u64,
}

impl Model for MemSink {
    ghost use Rattle.std.specs.Prelude.{vec_capacity};
    ghost use Rattle.outside.specs.Memory.{MemSinkTold};

    ghost Value = { MemSinkTold };

    ghost view = { λ s. record {
      held = s.bytes.items;
      room = vec_capacity s.bytes;
      faults = s.faults;
      failing = s.failing.items;
      calls = s.calls;
    } };
}

impl MemSink {
    ghost use Rattle.outside.specs.Memory.{IsNewSink};

    /// An empty sink, whose writes with these numbers fail, counted from 0.
    pub fn new(alloc: Global, writes: &[u64]) -> Result<MemSink, AllocError>
        ensures { IfOk result (IsNewSink writes.now) }
    {
        let failing = Vec::from_slice(alloc, writes)?;
        Ok(MemSink {
            bytes: Vec::new(alloc),
            failing,
            calls: 0,
            faults: 0,
        })
    }

    /// The bytes that it holds.
    pub fn held(&self) -> &[u8]
        ensures { result.now ≡ self.now.held }
    {
        &self.bytes
    }
}

impl Sink for MemSink {
    ghost told = { sink_told };

    ghost aside = { λ _. nothing_beside_sink };

    fn tells(&self) -> bool {
        true
    }

    fn unread(&mut self, _unread: Unread) -> Failed {
        self.faults = self.faults.saturating_add(1);
        Failed
    }

    fn write(&mut self, piece: &[u8]) -> Result<usize, Failed>
        requires { 0 < length piece.now }
        ensures bytes { Writes (sink_told self.old) (sink_told self.new) result piece.now }
        ensures cause { HasCause self.old.faults self.new.faults result }
        ensures fails { is_listed self.old.failing self.old.calls ≡ true → is_err result ≡ true }
        ensures wants { OnErr result ((is_listed self.old.failing self.old.calls
            ≡ true) ⊎ (self.old.room < length self.old.held + length piece.now)) }
        ensures whole { IfOk result (λ n. n ≡ length piece.now) }
        ensures faults { self.new.faults ≡ (if is_err result then counted self.old.faults else self.old.faults) }
        ensures calls { self.new.calls ≡ counted self.old.calls }
        ensures failing { self.new.failing ≡ self.old.failing }
    {
        let call = self.calls;
        self.calls = call.saturating_add(1);
        if self.failing.as_slice().contains(&call) {
            self.faults = self.faults.saturating_add(1);
            return Err(Failed);
        }
        match self.bytes.extend_from_slice(piece) {
            Ok(()) => Ok(piece.len()),
            Err(_) => {
                self.faults = self.faults.saturating_add(1);
                Err(Failed)
            }
        }
    }
}
