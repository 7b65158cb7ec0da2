//! Bodies of a stated length, which are collected once.
ghost use Rattle.std.specs.Prelude.{◌≡◌, ◌+◌, ◌≤◌, ◌<◌, ◌++◌, min, length, take, drop, IfOk, OnOk};
ghost use Rattle.http_wire.specs.Windows.{held};
ghost use Rattle.http_wire.specs.Bodies.{ReadsExactly, Fills};
ghost use Rattle.http_grammar.specs.Limits.{body_limit};

use crate::fault::WireStop;
use crate::reading::read_at;
use crate::window::Window;
use http_grammar::HttpFault;
use outside::Source;
use std::alloc::AllocError;

/// The most bytes of a body.
pub const BODY_LIMIT: u64 = 16_777_216;

/// The least room that a read into a body has, where so much is wanted.
const LEAST_ROOM: usize = 8192;

// Makes room behind the filled bytes, within the goal: it grows with what has come.
fn make_room(body: &mut Vec<u8>, filled: usize, goal: usize) -> Result<(), AllocError>
    requires filled { filled ≤ length body.old.items }
    requires within { length body.old.items ≤ goal }
    requires wanted { filled < goal }
    ensures room { OnOk result (filled < length body.new.items) }
    ensures within { length body.new.items ≤ goal }
    ensures front { take filled body.new.items ≡ take filled body.old.items }
{
    if filled < body.len() {
        return Ok(());
    }
    let room = filled.max(LEAST_ROOM).min(goal - filled);
    body.resize(filled + room, 0)
}

/// Adds exactly so many bytes of the source to the body.
#[tactic(auto, unfolding(http_grammar::specs::Limits::body_limit))]
pub fn read_exactly<S: Source>(
    source: &mut S,
    body: &mut Vec<u8>,
    count: usize,
) -> Result<(), WireStop>
    requires { length body.old.items + count ≤ body_limit }
    ensures reads { ReadsExactly body.old.items body.new.items count (S.told source.old) (S.told source.new) result }
    ensures aside { S.aside source.new ≡ S.aside source.old }
{
    let goal = body.len() + count;
    let mut filled = body.len();
    'more: while filled < goal {
        let Ok(()) = make_room(body, filled, goal) else {
            return Err(WireStop::Memory);
        };
        match read_at(source, body, filled) {
            Ok(0) => return Err(WireStop::Bad(HttpFault::Cut)),
            Ok(more) => filled += more,
            Err(_) => return Err(WireStop::ReadFault),
        }
    }
    Ok(())
}

// Moves the first bytes of the window, so many at most, to the body, and says how many.
fn take_front(window: &mut Window, body: &mut Vec<u8>, count: usize) -> Result<usize, AllocError>
    ensures count { IfOk result (λ n. n ≡ min count (length (held window.old))) }
    ensures window { IfOk result (λ n. held window.new ≡ drop n (held window.old)) }
    ensures body { IfOk result (λ n. body.new.items ≡ body.old.items ++ take n (held window.old)) }
{
    let bytes = window.as_slice();
    let had = count.min(bytes.len());
    body.extend_from_slice(&bytes[..had])?;
    window.drop_front(had);
    Ok(had)
}

/// Moves exactly so many bytes to the body: those of the window, and then those of the source.
pub fn fill<S: Source>(
    source: &mut S,
    window: &mut Window,
    body: &mut Vec<u8>,
    count: usize,
) -> Result<(), WireStop>
    requires { length body.old.items + count ≤ body_limit }
    ensures fills { Fills (held window.old) (held window.new) body.old.items body.new.items count (S.told source.old)
        (S.told source.new) result }
    ensures aside { S.aside source.new ≡ S.aside source.old }
{
    let Ok(had) = take_front(window, body, count) else {
        return Err(WireStop::Memory);
    };
    read_exactly(source, body, count - had)
}
