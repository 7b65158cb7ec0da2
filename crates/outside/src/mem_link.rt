//! A source and a sink in memory, as one.
ghost use Rattle.std.specs.Prelude.{◌≡◌, ◌+◌, ◌≤◌, ◌<◌, ◌⊎◌, ℕ, List, [], length, IfOk, OnErr, is_err, true, false, min, refl, if◌then◌else◌};
ghost use Rattle.outside.specs.Memory.{MemLinkTold, IsNewSink, source_told, sink_told, is_listed, counted};
ghost use Rattle.outside.specs.Outside.{Reads, Writes, HasCause, Rose};

use crate::mem_sink::MemSink;
use crate::mem_source::MemSource;
use crate::traits::{Failed, Link, Sink, Source};
use archive::Unread;
use std::alloc::{AllocError, Global};
use std::marker::Model;

/// A link in memory. Its reads and writes whose numbers are listed fail, as at a `MemSource` and a `MemSink`.
#[derive(Drop)]
pub struct MemLink {
    source: MemSource,
    sink: MemSink,
}

impl Model for MemLink {
    ghost use Rattle.outside.specs.Memory.{MemLinkTold};

    ghost Value = { MemLinkTold };

    ghost view = { λ l. record { source = l.source; sink = l.sink } };
}

impl MemLink {
    /// A link with these bytes left, whose reads and writes with these numbers fail, each counted from 0.
    pub fn new(
        alloc: Global,
        left: &[u8],
        reads: &[u64],
        writes: &[u64],
    ) -> Result<MemLink, AllocError>
        ensures source { IfOk result (λ link. link.source
            ≡ record { left = left.now; given = []; ended = false; faults = 0; failing = reads.now; calls = 0 }) }
        ensures sink { IfOk result (λ link. IsNewSink writes.now link.sink) }
    {
        let source = MemSource::new(alloc, left, reads)?;
        let sink = MemSink::new(alloc, writes)?;
        Ok(MemLink { source, sink })
    }

    /// Its side that is read.
    pub fn source(&self) -> &MemSource
        ensures { result.now ≡ self.now.source }
    {
        &self.source
    }

    /// Its side that is written.
    pub fn sink(&self) -> &MemSink
        ensures { result.now ≡ self.now.sink }
    {
        &self.sink
    }
}

impl Source for MemLink {
    ghost told = { λ l. source_told l.source };

    ghost aside = { λ l. record { sink = sink_told l.sink; stands_for = [] } };

    ghost end_is_empty = { λ l e. rw e refl };

    fn read(&mut self, room: &mut [u8]) -> Result<usize, Failed>
        requires { 0 < length room.old }
        ensures bound { IfOk result (λ n. n ≤ length room.new) }
        ensures bytes { Reads (source_told self.old.source) (source_told self.new.source) result room.new }
        ensures cause { HasCause self.old.source.faults self.new.source.faults result }
        ensures fails { is_err result ≡ is_listed self.old.source.failing self.old.source.calls }
        ensures whole { IfOk result (λ n. n ≡ min (length room.old) (length self.old.source.left)) }
        ensures calls { self.new.source.calls ≡ counted self.old.source.calls }
        ensures failing { self.new.source.failing ≡ self.old.source.failing }
        ensures sink { self.new.sink ≡ self.old.sink }
    {
        self.source.read(room)
    }
}

impl Sink for MemLink {
    ghost told = { λ l. sink_told l.sink };

    ghost aside = { λ l. record { source = source_told l.source; stands_for = [] } };

    fn tells(&self) -> bool {
        true
    }

    fn unread(&mut self, unread: Unread) -> Failed
        ensures held { self.new.sink.held ≡ self.old.sink.held }
        ensures rose { Rose self.old.sink.faults self.new.sink.faults }
        ensures later { self.old.sink.faults ≤ self.new.sink.faults }
        ensures source { self.new.source ≡ self.old.source }
    {
        self.sink.unread(unread)
    }

    fn write(&mut self, piece: &[u8]) -> Result<usize, Failed>
        requires { 0 < length piece.now }
        ensures bytes { Writes (sink_told self.old.sink) (sink_told self.new.sink) result piece.now }
        ensures cause { HasCause self.old.sink.faults self.new.sink.faults result }
        ensures fails { is_listed self.old.sink.failing self.old.sink.calls ≡ true → is_err result ≡ true }
        ensures wants { OnErr result ((is_listed self.old.sink.failing self.old.sink.calls
            ≡ true) ⊎ (self.old.sink.room < length self.old.sink.held + length piece.now)) }
        ensures whole { IfOk result (λ n. n ≡ length piece.now) }
        ensures calls { self.new.sink.calls ≡ counted self.old.sink.calls }
        ensures failing { self.new.sink.failing ≡ self.old.sink.failing }
        ensures source { self.new.source ≡ self.old.source }
    {
        self.sink.write(piece)
    }
}

impl Link for MemLink {
    ghost stands_for = { λ _. [] };

    ghost reads_keep = { λ _. refl };

    ghost writes_keep = { λ _. refl };

    fn finish(&mut self) {}
}
