//! Reading until a head is whole, or none can come.
ghost use Rattle.std.specs.Prelude.{◌≡◌, ⊤, IfOk};
ghost use Rattle.http_wire.specs.Windows.{held};
ghost use Rattle.http_wire.specs.HeadAnswers.{Looks, HeadAnswer, ReadsHead};

use crate::fault::WireStop;
use crate::heads::{Framed, HEAD_LIMIT, HeadSeen, examine_head};
use crate::pace::Pace;
use crate::window::Window;
use http_grammar::HttpFault;
use httparse::spans::HeaderSpan;
use outside::Source;
use std::alloc::AllocError;

// A look at the bytes, where it is worth it.
#[tactic(auto, unfolding(http_grammar::specs::Limits::head_limit))]
fn look(bytes: &[u8], spans: &mut Vec<HeaderSpan>, pace: &mut Pace) -> Result<HeadSeen, AllocError>
    ensures { IfOk result (λ seen. Looks bytes.now spans.new.items seen) }
{
    if !pace.is_worth(bytes, HEAD_LIMIT) {
        return Ok(HeadSeen::Open);
    }
    examine_head(bytes, spans)
}

// The answer where the source has ended.
fn at_end(bytes: &[u8], spans: &mut Vec<HeaderSpan>) -> Result<Option<Framed>, WireStop>
    ensures { HeadAnswer ⊤ ⊥ bytes.now spans.new.items result }
{
    match examine_head(bytes, spans) {
        Ok(HeadSeen::Open) if bytes.is_empty() => Ok(None),
        Ok(HeadSeen::Open) => Err(WireStop::Bad(HttpFault::Cut)),
        Ok(HeadSeen::Bad(fault)) => Err(WireStop::Bad(fault)),
        Ok(HeadSeen::Whole(head, framing, expects)) => Ok(Some(Framed {
            head,
            framing,
            expects,
        })),
        Err(_) => Err(WireStop::Memory),
    }
}

// The answer where a read has failed.
fn at_fault(bytes: &[u8], spans: &mut Vec<HeaderSpan>) -> Result<Option<Framed>, WireStop>
    ensures { HeadAnswer ⊥ ⊤ bytes.now spans.new.items result }
{
    match examine_head(bytes, spans) {
        Ok(HeadSeen::Open) => Err(WireStop::ReadFault),
        Ok(HeadSeen::Bad(fault)) => Err(WireStop::Bad(fault)),
        Ok(HeadSeen::Whole(head, framing, expects)) => Ok(Some(Framed {
            head,
            framing,
            expects,
        })),
        Err(_) => Err(WireStop::Memory),
    }
}

/// Reads until a head is whole at the front of the window, or none can come. None is the end of the input at a border.
pub fn read_head<S: Source>(
    source: &mut S,
    window: &mut Window,
    spans: &mut Vec<HeaderSpan>,
) -> Result<Option<Framed>, WireStop>
    ensures reads { ReadsHead (held window.old) (held window.new) spans.new.items (S.told source.old)
        (S.told source.new) result }
    ensures aside { S.aside source.new ≡ S.aside source.old }
{
    let mut pace = Pace::for_head();
    'more: loop {
        match look(window.as_slice(), spans, &mut pace) {
            Ok(HeadSeen::Open) => {}
            Ok(HeadSeen::Bad(fault)) => return Err(WireStop::Bad(fault)),
            Ok(HeadSeen::Whole(head, framing, expects)) => {
                return Ok(Some(Framed {
                    head,
                    framing,
                    expects,
                }));
            }
            Err(_) => return Err(WireStop::Memory),
        }
        match window.read_more(source) {
            Ok(true) => {}
            Ok(false) => return at_end(window.as_slice(), spans),
            Err(WireStop::ReadFault) => return at_fault(window.as_slice(), spans),
            Err(stop) => return Err(stop),
        }
    }
}
