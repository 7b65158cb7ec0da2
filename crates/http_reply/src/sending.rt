//! Sending whole pieces.
ghost use Rattle.std.specs.Prelude.{◌≡◌, ◌≤◌, length, drop, OnOk, OnErr};
ghost use Rattle.outside.specs.Outside.{Took, HasCause};
ghost use Rattle.http_reply.specs.Sent.{TookFront, Offers};
ghost use Rattle.http_reply.specs.Replies.{interim_text, runtime_text};

use outside::{Failed, Sink};

// What is left of the piece.
fn tail(piece: &[u8], done: usize) -> &[u8]
    requires { done ≤ length piece.now }
    ensures { result.now ≡ drop done piece.now }
{
    &piece[done..]
}

/// Writes the whole piece: each write is given all that is left of it.
pub fn send<K: Sink>(sink: &mut K, piece: &[u8]) -> Result<(), Failed>
    ensures ok { OnOk result (Took (K.told sink.old) (K.told sink.new) piece.now) }
    ensures front { OnErr result (TookFront (K.told sink.old) (K.told sink.new) piece.now) }
    ensures pieces { Offers (K.offered sink.old) (K.offered sink.new) piece.now }
    ensures aside { K.aside sink.new ≡ K.aside sink.old }
    ensures cause { HasCause (K.told sink.old).faults (K.told sink.new).faults result }
{
    let mut done = 0;
    while done < piece.len() {
        match sink.write(tail(piece, done)) {
            Ok(count) => done += count,
            Err(failed) => return Err(failed),
        }
    }
    Ok(())
}

/// Sends the interim reply `100 Continue`, as one piece.
#[tactic(auto, unfolding(crate::specs::Replies::interim_text))]
pub fn send_interim<K: Sink>(sink: &mut K) -> Result<(), Failed>
    ensures ok { OnOk result (Took (K.told sink.old) (K.told sink.new) interim_text) }
    ensures front { OnErr result (TookFront (K.told sink.old) (K.told sink.new) interim_text) }
    ensures pieces { Offers (K.offered sink.old) (K.offered sink.new) interim_text }
    ensures aside { K.aside sink.new ≡ K.aside sink.old }
    ensures cause { HasCause (K.told sink.old).faults (K.told sink.new).faults result }
{
    send(sink, b"HTTP/1.1 100 Continue\r\n\r\n")
}

/// Sends the reply to want of memory, as one piece. It closes the session.
#[tactic(auto, unfolding(crate::specs::Replies::runtime_text))]
pub fn send_memory<K: Sink>(sink: &mut K) -> Result<(), Failed>
    ensures ok { OnOk result (Took (K.told sink.old) (K.told sink.new) runtime_text) }
    ensures front { OnErr result (TookFront (K.told sink.old) (K.told sink.new) runtime_text) }
    ensures pieces { Offers (K.offered sink.old) (K.offered sink.new) runtime_text }
    ensures aside { K.aside sink.new ≡ K.aside sink.old }
    ensures cause { HasCause (K.told sink.old).faults (K.told sink.new).faults result }
{
    send(
        sink,
        b"HTTP/1.1 500 Internal Server Error\r\nContent-Type: application/json\r\nContent-Length: 52\r\nConnection: close\r\n\r\n{\"exception\":\"runtime\",\"message\":\"memory is wanted\"}",
    )
}
