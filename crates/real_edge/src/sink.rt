//! A sink over a writer of the system.
ghost use Rattle.std.specs.Prelude.{◌≡◌, None};
ghost use Rattle.outside.specs.Outside.{nothing_beside_sink};

use crate::again::write_some;
use archive::Unread;
use outside::{Failed, Sink};
use std::io::Write;

/// A sink over standard output, or another writer of bytes. A write that takes nothing is a fault.
#[derive(Drop)]
pub struct StdSink<W: Write> {
    writer: W,
    faults: u64,
}

impl<W: Write> StdSink<W> {
    /// A sink over what `rt.stdout()` answers, or over another writer.
    pub fn new(writer: W) -> StdSink<W>
        ensures { ⟦<StdSink<W> as Sink>⟧.told result ≡ record { held = None; faults = 0 } }
    {
        StdSink { writer, faults: 0 }
    }

    /// How many writes have failed.
    pub fn faults(&self) -> u64
        ensures { result ≡ (⟦<StdSink<W> as Sink>⟧.told self.now).faults }
    {
        self.faults
    }
}

impl<W: Write> Sink for StdSink<W> {
    ghost told = { λ s. record { held = None; faults = s.faults } };

    ghost aside = { λ _. nothing_beside_sink };

    fn tells(&self) -> bool {
        false
    }

    fn unread(&mut self, _unread: Unread) -> Failed {
        self.faults = self.faults.saturating_add(1);
        Failed
    }

    fn write(&mut self, piece: &[u8]) -> Result<usize, Failed> {
        match write_some(&mut self.writer, piece) {
            Some(count) if count > 0 => Ok(count),
            _ => {
                self.faults = self.faults.saturating_add(1);
                Err(Failed)
            }
        }
    }
}
