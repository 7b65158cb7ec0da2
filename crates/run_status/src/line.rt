//! The line that is written once all connections are served, put together in a fixed array.
ghost use Rattle.std.specs.Prelude.{◌≡◌, ◌++◌, ◌≤◌, ◌+◌, [], take, length};
ghost use Rattle.run_status.specs.Status.{summary};

use itoa::Buffer;
use std::marker::Model;

/// The bytes of a line, of which there are never more than 64.
#[derive(Drop)]
pub struct Line {
    bytes: [u8; 64],
    len: usize,
}

impl Model for Line {
    ghost use Rattle.std.specs.Prelude.{List, ℕ, take, ◌≤◌};

    ghost Value = { List ℕ };

    ghost view = { λ l. take l.len l.bytes };

    ghost invariant = { λ l. l.len ≤ 64 };
}

fn put(bytes: &mut [u8; 64], at: usize, piece: &[u8])
    requires { at + length piece.now ≤ 64 }
    ensures { take (at + length piece.now) bytes.new ≡ take at bytes.old ++ piece.now }
{
    bytes[at..at + piece.len()].copy_from_slice(piece);
}

impl Line {
    fn new() -> Line
        ensures { result ≡ [] }
    {
        Line {
            bytes: [0; 64],
            len: 0,
        }
    }

    /// Its bytes.
    pub fn bytes(&self) -> &[u8]
        ensures { result.now ≡ self.now }
    {
        &self.bytes[..self.len]
    }

    fn push(&mut self, piece: &[u8])
        requires { length self.old + length piece.now ≤ 64 }
        ensures { self.new ≡ self.old ++ piece.now }
    {
        put(&mut self.bytes, self.len, piece);
        self.len += piece.len();
    }
}

/// How many sessions there were, and the step that the repository has reached. It takes no memory.
pub fn summary(sessions: u64, steps: u64) -> Line
    ensures { result ≡ summary sessions steps }
{
    let mut line = Line::new();
    let mut buffer = Buffer::new();
    line.push("sessions ".as_bytes());
    line.push(buffer.format(sessions).as_bytes());
    line.push(" steps ".as_bytes());
    line.push(buffer.format(steps).as_bytes());
    line.push(b"\n");
    line
}
