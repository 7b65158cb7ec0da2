//! Writing replies.
ghost use Rattle.std.specs.Prelude.{◌≡◌, ◌≤◌, ◌++◌, OnOk, OnErr};
ghost use Rattle.outside.specs.Outside.{Took, HasCause};
ghost use Rattle.http_reply.specs.Sent.{TookFront};
ghost use Rattle.http_reply.specs.Replies.{reply_text, head_text};

use crate::head::make_head;
use crate::pieces::send_body;
use crate::sending::send;
use cm_base::body::Body;
use cm_base::shown::Shown;
use outside::{Failed, Sink};

// Sends a head and then a body.
fn send_both<K: Sink>(sink: &mut K, head: &[u8], body: &Body) -> Result<(), Failed>
    ensures ok { OnOk result (Took (K.told sink.old) (K.told sink.new) (head.now ++ body.now)) }
    ensures front { OnErr result (TookFront (K.told sink.old) (K.told sink.new) (head.now ++ body.now)) }
    ensures aside { K.aside sink.new ≡ K.aside sink.old }
    ensures cause { HasCause (K.told sink.old).faults (K.told sink.new).faults result }
{
    match send(sink, head) {
        Ok(()) => match send_body(sink, body) {
            Ok(()) => Ok(()),
            Err(failed) => Err(failed),
        },
        Err(failed) => Err(failed),
    }
}

/// Writes a reply: its head from a fixed array, and then its body, if it has one. It takes no memory.
pub fn write_reply<K: Sink>(sink: &mut K, shown: &Shown, last: bool) -> Result<(), Failed>
    ensures ok { OnOk result (Took (K.told sink.old) (K.told sink.new) (reply_text shown.now last)) }
    ensures front { OnErr result (TookFront (K.told sink.old) (K.told sink.new) (reply_text shown.now last)) }
    ensures aside { K.aside sink.new ≡ K.aside sink.old }
    ensures cause { HasCause (K.told sink.old).faults (K.told sink.new).faults result }
{
    let head = make_head(shown, last);
    send_both(sink, head.bytes(), &shown.body)
}
