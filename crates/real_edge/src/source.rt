//! A source over a reader of the system.
ghost use Rattle.std.specs.Prelude.{◌≡◌, None, false};
ghost use Rattle.outside.specs.Outside.{nothing_beside_source};

use crate::again::read_some;
use outside::{Failed, Source};
use std::io::Read;

/// A source over standard input, or another reader of bytes. Once it has ended it reads no more.
#[derive(Drop)]
pub struct StdSource<R: Read> {
    reader: R,
    ended: bool,
    faults: u64,
}

impl<R: Read> StdSource<R> {
    /// A source over what `rt.stdin()` answers, or over another reader.
    pub fn new(reader: R) -> StdSource<R>
        ensures { ⟦<StdSource<R> as Source>⟧.told result
            ≡ record { left = None; given = None; ended = false; faults = 0 } }
    {
        StdSource {
            reader,
            ended: false,
            faults: 0,
        }
    }

    /// How many reads have failed.
    pub fn faults(&self) -> u64
        ensures { result ≡ (⟦<StdSource<R> as Source>⟧.told self.now).faults }
    {
        self.faults
    }
}

impl<R: Read> Source for StdSource<R> {
    ghost told = { λ s. record { left = None; given = None; ended = s.ended; faults = s.faults } };

    ghost aside = { λ _. nothing_beside_source };

    ghost end_is_empty = { λ _ _. tt };

    fn read(&mut self, room: &mut [u8]) -> Result<usize, Failed> {
        if self.ended {
            return Ok(0);
        }
        match read_some(&mut self.reader, room) {
            Some(count) => {
                self.ended = count == 0;
                Ok(count)
            }
            None => {
                self.faults = self.faults.saturating_add(1);
                Err(Failed)
            }
        }
    }
}
