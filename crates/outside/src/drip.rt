//! A source in memory that gives a few bytes at a time.
ghost use Rattle.std.specs.Prelude.{◌≡◌, ◌≤◌, ◌<◌, ℕ, [], length, Some, IfOk, is_err, false, true, max, min, refl};
ghost use Rattle.outside.specs.Memory.{DripTold, source_told, is_listed, counted};
ghost use Rattle.outside.specs.Outside.{Reads, HasCause, nothing_beside_source};

use crate::mem_source::MemSource;
use crate::traits::{Failed, Source};
use std::alloc::{AllocError, Global};
use std::marker::Model;

/// A source over bytes in memory, of which a read gives so many at most, whatever room it has.
#[derive(Drop)]
pub struct Drip {
    source: MemSource,
    most: usize,
}

impl Model for Drip {
    ghost use Rattle.std.specs.Prelude.{◌<◌};
    ghost use Rattle.outside.specs.Memory.{DripTold};

    ghost Value = { DripTold };

    ghost view = { λ d. record { source = d.source; most = d.most } };

    ghost invariant = { λ d. 0 < d.most };
}

impl Drip {
    /// A source with these bytes left, whose reads give so many at most, and one where that is 0. No read fails.
    pub fn new(alloc: Global, left: &[u8], most: usize) -> Result<Drip, AllocError>
        ensures source { IfOk result (λ drip. drip.source
            ≡ record { left = left.now; given = []; ended = false; faults = 0; failing = []; calls = 0 }) }
        ensures most { IfOk result (λ drip. drip.most ≡ max most 1) }
    {
        let source = MemSource::new(alloc, left, &[])?;
        Ok(Drip {
            source,
            most: most.max(1),
        })
    }
}

impl Source for Drip {
    ghost told = { λ d. source_told d.source };

    ghost aside = { λ _. nothing_beside_source };

    ghost end_is_empty = { λ d e. rw e refl };

    fn read(&mut self, room: &mut [u8]) -> Result<usize, Failed>
        requires { 0 < length room.old }
        ensures bound { IfOk result (λ n. n ≤ length room.new) }
        ensures bytes { Reads (source_told self.old.source) (source_told self.new.source) result room.new }
        ensures cause { HasCause self.old.source.faults self.new.source.faults result }
        ensures fails { is_err result ≡ is_listed self.old.source.failing self.old.source.calls }
        ensures whole { IfOk result (λ n. n ≡ min (min self.old.most (length room.old)) (length self.old.source.left)) }
        ensures calls { self.new.source.calls ≡ counted self.old.source.calls }
        ensures failing { self.new.source.failing ≡ self.old.source.failing }
        ensures most { self.new.most ≡ self.old.most }
    {
        let most = self.most.min(room.len());
        self.source.read(&mut room[..most])
    }
}
