//! Sending bytes that stand in an archive: they are read into a fixed room, and sent from there.
ghost use Rattle.std.specs.Prelude.{◌≡◌, ◌+◌, ◌<◌, ◌≤◌, length, take, drop, OnOk, OnErr};
ghost use Rattle.outside.specs.Outside.{Took, HasCause};
ghost use Rattle.http_reply.specs.Sent.{TookFront};

use crate::sending::send;
use archive::Extent;
use outside::{Failed, Sink};

/// So many bytes are read at once.
pub const ROOM: usize = 16_384;

// Reads the next bytes into room, and sends them. A sink that tells what it holds is given known bytes alone.
fn send_part<K: Sink>(
    sink: &mut K,
    extent: &Extent,
    from: u64,
    room: &mut [u8],
) -> Result<(), Failed>
    requires { from + length room.old ≤ length extent.now }
    ensures ok { OnOk result (Took (K.told sink.old) (K.told sink.new)
        (take (length room.old) (drop from extent.now))) }
    ensures front { OnErr result (TookFront (K.told sink.old) (K.told sink.new)
        (take (length room.old) (drop from extent.now))) }
    ensures aside { K.aside sink.new ≡ K.aside sink.old }
    ensures cause { HasCause (K.told sink.old).faults (K.told sink.new).faults result }
{
    let known = sink.tells();
    match extent.read(known, from, room) {
        Ok(()) => {}
        Err(unread) => return Err(sink.unread(unread)),
    }
    match send(sink, room) {
        Ok(()) => Ok(()),
        Err(failed) => Err(failed),
    }
}

// So many bytes as the room has, or those that are left.
fn next_of(left: u64) -> usize
    requires { 0 < left }
    ensures some { 0 < result }
    ensures within { result ≤ left }
    ensures fits { result ≤ 16384 }
{
    if left < ROOM as u64 {
        left as usize
    } else {
        ROOM
    }
}

/// Sends the bytes, `ROOM` of them at a time. It takes no memory.
pub fn send_extent<K: Sink>(sink: &mut K, extent: &Extent) -> Result<(), Failed>
    ensures ok { OnOk result (Took (K.told sink.old) (K.told sink.new) extent.now) }
    ensures front { OnErr result (TookFront (K.told sink.old) (K.told sink.new) extent.now) }
    ensures aside { K.aside sink.new ≡ K.aside sink.old }
    ensures cause { HasCause (K.told sink.old).faults (K.told sink.new).faults result }
{
    let mut room = [0u8; ROOM];
    let mut done = 0;
    while done < extent.len() {
        let count = next_of(extent.len() - done);
        match send_part(sink, extent, done, &mut room[..count]) {
            Ok(()) => done += count as u64,
            Err(failed) => return Err(failed),
        }
    }
    Ok(())
}
