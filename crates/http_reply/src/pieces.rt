//! Sending the pieces of a body.
ghost use Rattle.std.specs.Prelude.{◌≡◌, ◌≤◌, OnOk, OnErr};
ghost use Rattle.cm_base.specs.Whole.{whole};
ghost use Rattle.outside.specs.Outside.{Took, HasCause};
ghost use Rattle.http_reply.specs.Sent.{TookFront};

use crate::extent::send_extent;
use crate::sending::send;
use cm_base::body::{Body, BodyParts};
use cm_base::piece::{Piece, Place};
use outside::{Failed, Sink};

// Sends one piece, wherever its bytes are.
fn send_piece<K: Sink>(sink: &mut K, piece: &Piece) -> Result<(), Failed>
    ensures ok { OnOk result (Took (K.told sink.old) (K.told sink.new) piece.now) }
    ensures front { OnErr result (TookFront (K.told sink.old) (K.told sink.new) piece.now) }
    ensures aside { K.aside sink.new ≡ K.aside sink.old }
    ensures cause { HasCause (K.told sink.old).faults (K.told sink.new).faults result }
{
    match piece.place() {
        Place::Held(bytes) => match send(sink, bytes.as_slice()) {
            Ok(()) => Ok(()),
            Err(failed) => Err(failed),
        },
        Place::Kept(extent) => send_extent(sink, extent),
    }
}

/// Sends the pieces one after another. It takes no memory.
pub fn send_pieces<K: Sink>(sink: &mut K, pieces: &[Piece]) -> Result<(), Failed>
    ensures ok { OnOk result (Took (K.told sink.old) (K.told sink.new) (whole pieces.now)) }
    ensures front { OnErr result (TookFront (K.told sink.old) (K.told sink.new) (whole pieces.now)) }
    ensures aside { K.aside sink.new ≡ K.aside sink.old }
    ensures cause { HasCause (K.told sink.old).faults (K.told sink.new).faults result }
{
    for piece in pieces {
        match send_piece(sink, piece) {
            Ok(()) => {}
            Err(failed) => return Err(failed),
        }
    }
    Ok(())
}

/// Sends a body, wherever its bytes are. It takes no memory.
pub fn send_body<K: Sink>(sink: &mut K, body: &Body) -> Result<(), Failed>
    ensures ok { OnOk result (Took (K.told sink.old) (K.told sink.new) body.now) }
    ensures front { OnErr result (TookFront (K.told sink.old) (K.told sink.new) body.now) }
    ensures aside { K.aside sink.new ≡ K.aside sink.old }
    ensures cause { HasCause (K.told sink.old).faults (K.told sink.new).faults result }
{
    match body.parts() {
        BodyParts::Whole(bytes) => send(sink, bytes.as_slice()),
        BodyParts::Stream(pieces) => send_pieces(sink, pieces.list()),
    }
}
