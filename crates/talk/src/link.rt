//! Reading from a link and writing to it: what one side does changes nothing that the other tells, nor what the link stands for.
ghost use Rattle.std.specs.Prelude.{◌≡◌, OnOk, OnErr};
ghost use Rattle.outside.specs.Outside.{Took};
ghost use Rattle.http_reply.specs.Replies.{reply_text, interim_text, runtime_text};
ghost use Rattle.http_wire.specs.Answers.{ReadsRequest};
ghost use Rattle.talk.specs.Served.{wire_of};
ghost use Rattle.talk.specs.Steps.{Lost, SentOrLost, Refuses};

use crate::end::End;
use crate::served::Served;
use cm_base::shown::Shown;
use http_grammar::HttpFault;
use http_reply::{cause_shown, fault_cause, send_interim, send_memory, write_reply};
use http_wire::{Buffer, Incoming, WireStop, read_request};
use outside::{Failed, Link};
use std::alloc::Global;

/// Reads what comes next.
pub fn read_next<L: Link>(
    alloc: Global,
    link: &mut L,
    buffer: &mut Buffer,
) -> Result<Incoming, WireStop>
    ensures reads { ReadsRequest buffer.old buffer.new (L.Source.told link.old) (L.Source.told link.new) result }
    ensures sink { L.Sink.told link.new ≡ L.Sink.told link.old }
    ensures stands_for { L.stands_for link.new ≡ L.stands_for link.old }
{
    read_request(alloc, link, buffer)
}

/// Sends a reply.
pub fn send_reply<L: Link>(link: &mut L, shown: &Shown, last: bool) -> Result<(), Failed>
    ensures ok { OnOk result (Took (L.Sink.told link.old) (L.Sink.told link.new) (reply_text shown.now last)) }
    ensures lost { OnErr result (Lost (L.Sink.told link.old) (L.Sink.told link.new) (reply_text shown.now last)) }
    ensures source { L.Source.told link.new ≡ L.Source.told link.old }
    ensures stands_for { L.stands_for link.new ≡ L.stands_for link.old }
{
    write_reply(link, shown, last)
}

/// Sends the interim reply.
pub fn send_continue<L: Link>(link: &mut L) -> Result<(), Failed>
    ensures ok { OnOk result (Took (L.Sink.told link.old) (L.Sink.told link.new) interim_text) }
    ensures lost { OnErr result (Lost (L.Sink.told link.old) (L.Sink.told link.new) interim_text) }
    ensures source { L.Source.told link.new ≡ L.Source.told link.old }
    ensures stands_for { L.stands_for link.new ≡ L.stands_for link.old }
{
    send_interim(link)
}

/// Sends the fixed reply for want of memory.
pub fn starve<L: Link>(link: &mut L)
    ensures sent { SentOrLost (L.Sink.told link.old) (L.Sink.told link.new) runtime_text }
    ensures source { L.Source.told link.new ≡ L.Source.told link.old }
    ensures stands_for { L.stands_for link.new ≡ L.stands_for link.old }
{
    let _ = send_memory(link);
}

/// Answers a fault of the bytes with its cause, and closes. A request that is cut off has no reply.
pub fn refuse<K: Served, L: Link>(alloc: Global, link: &mut L, fault: HttpFault) -> End
    ensures refuses { Refuses (wire_of K.user K.least K.closes) fault (L.Sink.told link.old)
        (L.Sink.told link.new) result }
    ensures source { L.Source.told link.new ≡ L.Source.told link.old }
    ensures stands_for { L.stands_for link.new ≡ L.stands_for link.old }
{
    let Some(cause) = fault_cause(fault) else {
        return End::Bad(fault);
    };
    let Ok(shown) = cause_shown(alloc, &cause, None) else {
        starve(link);
        return End::Starved;
    };
    match send_reply(link, &shown, true) {
        Ok(()) => End::Bad(fault),
        Err(_) => End::WriteFault,
    }
}
