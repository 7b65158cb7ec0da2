//! The statuses of a run, and the lines with which it ends.
ghost use Rattle.std.specs.Prelude.{◌≡◌};
ghost use Rattle.run_status.specs.Status.{Refused, Summed, status_of, status_of_end, status_of_loss, summary};

use crate::line::summary;
use desk_serve::HostEnd;
use http_reply::send;
use outside::{Link, Sink};
use talk::End;

/// The line for words that the program does not have.
const NOT_VALID: &str = "cmisd: words are not valid\n";

/// The status of words that the program does not have.
const NOT_THE_PROGRAMS: u8 = 2;

/// The status where memory is wanted.
const WANTS_MEMORY: u8 = 7;

/// The status where the journal could not be kept.
const NOT_KEPT: u8 = 9;

/// The status where the host fails.
const HOST_FAILED: u8 = 5;

/// Writes the line for words that the program does not have, and answers the status 2, also where it could not be written.
pub fn refuse<O: Sink>(output: &mut O) -> u8
    ensures { Refused (O.told output.old) (O.told output.new) result }
{
    match send(output, NOT_VALID.as_bytes()) {
        Ok(()) => NOT_THE_PROGRAMS,
        Err(_) => NOT_THE_PROGRAMS,
    }
}

/// The same on a link.
pub fn refused<L: Link>(link: &mut L) -> u8
    ensures line { Refused (L.Sink.told link.old) (L.Sink.told link.new) result }
    ensures unread { L.Source.told link.new ≡ L.Source.told link.old }
    ensures stands_for { L.stands_for link.new ≡ L.stands_for link.old }
{
    match send(link, NOT_VALID.as_bytes()) {
        Ok(()) => NOT_THE_PROGRAMS,
        Err(_) => NOT_THE_PROGRAMS,
    }
}

/// The status of a session's end: 0 where it ended well, 3 or 4 where its input or its output failed, 7 where memory was wanted, 8 where
/// the bytes of a request had a fault, and 9 where a reply could not be kept.
pub fn status_of(end: End) -> u8
    ensures { result ≡ status_of end }
{
    match end {
        End::Ended => 0,
        End::ReadFault => 3,
        End::WriteFault => 4,
        End::Starved => WANTS_MEMORY,
        End::Bad(_) => 8,
        End::Unkept => NOT_KEPT,
    }
}

fn status_of_end(end: HostEnd) -> u8
    ensures { result ≡ status_of_end end }
{
    match end {
        HostEnd::Empty | HostEnd::Many => 0,
        HostEnd::Fault => HOST_FAILED,
        HostEnd::Memory => WANTS_MEMORY,
    }
}

fn status_of_loss(end: HostEnd) -> u8
    ensures { result ≡ status_of_loss end }
{
    match end {
        HostEnd::Empty | HostEnd::Many => 4,
        HostEnd::Fault => HOST_FAILED,
        HostEnd::Memory => WANTS_MEMORY,
    }
}

/// Writes the line that is written once all connections are served, and answers the status: 0, 4 where the line could not be written, 5 where
/// the host failed, and 7 where memory was wanted.
pub fn sum_up<O: Sink>(output: &mut O, sessions: u64, steps: u64, end: HostEnd) -> u8
    ensures { Summed end (summary sessions steps) (O.told output.old) (O.told output.new) result }
{
    let line = summary(sessions, steps);
    match send(output, line.bytes()) {
        Ok(()) => status_of_end(end),
        Err(_) => status_of_loss(end),
    }
}
