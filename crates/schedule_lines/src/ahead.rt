//! The bytes that were read and stand in no line before.
ghost use Rattle.std.specs.Prelude.{◌≡◌, ◌==◌, ◌++◌, ◌≤◌, [], length, OnOk, OnErr};
ghost use Rattle.std.specs.List.{list_any, before_first, after_first, position_or_len};
ghost use Rattle.schedule_lines.specs.Scripts.{is_line_feed};
ghost use Rattle.schedule_lines.specs.Reading.{More, has_line};

use crate::line::LONGEST_LINE;
use outside::Source;
use std::alloc::{AllocError, Global};
use std::marker::Model;

/// How many bytes a read takes at most.
const ROOM: usize = 4096;

/// Why a read gave nothing to keep.
#[derive(Clone, Copy, Debug, PartialEq, Eq)]
pub(crate) enum ReadStop {
    /// The source failed.
    Fault,
    /// There was no memory.
    Memory,
}

/// Bytes from a place of a vector on.
#[derive(Drop)]
pub(crate) struct Ahead {
    bytes: Vec<u8>,
    start: usize,
}

impl Model for Ahead {
    ghost use Rattle.std.specs.Prelude.{◌≤◌, ℕ, List, length, drop};

    ghost Value = { List ℕ };

    ghost view = { λ a. drop a.start a.bytes.items };

    ghost invariant = { λ a. a.start ≤ length a.bytes.items };
}

fn has_line_feed(bytes: &[u8]) -> bool
    ensures { result ≡ list_any is_line_feed bytes.now }
{
    bytes.iter().any(|b| *b == b'\n')
}

// How many bytes stand before the first line feed, or all.
fn line_len(bytes: &[u8]) -> usize
    ensures len { result ≡ position_or_len is_line_feed bytes.now }
    ensures bound { result ≤ length bytes.now }
{
    match bytes.iter().position(|b| *b == b'\n') {
        Some(place) => place,
        None => bytes.len(),
    }
}

impl Ahead {
    /// No bytes.
    pub(crate) fn new(alloc: Global) -> Ahead
        ensures { result ≡ [] }
    {
        Ahead {
            bytes: Vec::new(alloc),
            start: 0,
        }
    }

    fn as_slice(&self) -> &[u8]
        ensures { result.now ≡ self.now }
    {
        &self.bytes[self.start..]
    }

    /// Whether there are none.
    pub(crate) fn is_empty(&self) -> bool
        ensures { result ≡ (length self.now == 0) }
    {
        self.start == self.bytes.len()
    }

    /// Whether a line stands whole at the front, or is too long already.
    #[tactic(auto, unfolding(crate::specs::Limits::longest_line))]
    pub(crate) fn has_line(&self) -> bool
        ensures { result ≡ has_line self.now }
    {
        let bytes = self.as_slice();
        has_line_feed(bytes) || LONGEST_LINE < bytes.len()
    }

    /// The bytes before the first line feed, or all.
    pub(crate) fn line(&self) -> &[u8]
        ensures { result.now ≡ before_first is_line_feed self.now }
    {
        let bytes = self.as_slice();
        &bytes[..line_len(bytes)]
    }

    /// Lets go of the bytes to the first line feed, or of all.
    pub(crate) fn drop_line(&mut self)
        ensures { self.new ≡ after_first is_line_feed self.old }
    {
        let len = line_len(self.as_slice());
        self.start = self.bytes.len().min(self.start + len + 1);
    }

    // Lets go of what stands before the place.
    fn shift(&mut self, alloc: Global) -> Result<(), AllocError>
        ensures ok { OnOk result (self.new ≡ self.old) }
        ensures err { OnErr result (self.new ≡ self.old) }
    {
        if self.start == 0 {
            return Ok(());
        }
        let bytes = Vec::from_slice(alloc, self.as_slice())?;
        self.bytes = bytes;
        self.start = 0;
        Ok(())
    }

    // Adds bytes at the end.
    fn add(&mut self, alloc: Global, bytes: &[u8]) -> Result<(), AllocError>
        ensures { OnOk result (self.new ≡ self.old ++ bytes.now) }
    {
        self.shift(alloc)?;
        self.bytes.extend_from_slice(bytes)?;
        Ok(())
    }

    /// Reads once, and adds what came. False is the end.
    pub(crate) fn read_more<S: Source>(
        &mut self,
        alloc: Global,
        source: &mut S,
    ) -> Result<bool, ReadStop>
        ensures { More self.old self.new (S.told source.old) (S.told source.new) result }
    {
        let mut room = [0; ROOM];
        match source.read(&mut room) {
            Ok(0) => Ok(false),
            Ok(count) => match self.add(alloc, &room[..count]) {
                Ok(()) => Ok(true),
                Err(_) => Err(ReadStop::Memory),
            },
            Err(_) => Err(ReadStop::Fault),
        }
    }
}
