//! Reads and writes of the system that a signal may cut short, as where a process is stopped and goes on: these are made again.
ghost use Rattle.std.specs.Prelude.{◌≤◌, IfSome, length};

use std::io::{ErrorKind, Read, Write};

// How often one call is made at most.
const MOST_TRIES: u32 = 1000;

/// How many bytes were read. None: it failed.
pub(crate) fn read_some<R: Read>(reader: &mut R, room: &mut [u8]) -> Option<usize>
    ensures { IfSome result (λ n. n ≤ length room.new) }
{
    for _ in 0..MOST_TRIES {
        match reader.read(room) {
            Ok(count) => return Some(count),
            Err(error) if error.kind() == ErrorKind::Interrupted => {}
            Err(_) => return None,
        }
    }
    None
}

/// How many bytes of the piece were taken. None: it failed.
pub(crate) fn write_some<W: Write>(writer: &mut W, piece: &[u8]) -> Option<usize>
    ensures { IfSome result (λ n. n ≤ length piece.now) }
{
    for _ in 0..MOST_TRIES {
        match writer.write(piece) {
            Ok(count) => return Some(count),
            Err(error) if error.kind() == ErrorKind::Interrupted => {}
            Err(_) => return None,
        }
    }
    None
}
