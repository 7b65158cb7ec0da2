//! Sending a line in pieces, so that it takes no memory.
ghost use Rattle.std.specs.Prelude.{◌++◌, OnOk, OnErr};
ghost use Rattle.outside.specs.Outside.{HasCause, Took};
ghost use Rattle.http_reply.specs.Sent.{TookFront};

use http_reply::send;
use outside::{Failed, Sink};

fn send_two<O: Sink>(output: &mut O, first: &[u8], second: &[u8]) -> Result<(), Failed>
    ensures ok { OnOk result (Took (O.told output.old) (O.told output.new) (first.now ++ second.now)) }
    ensures front { OnErr result (TookFront (O.told output.old) (O.told output.new) (first.now ++ second.now)) }
    ensures cause { HasCause (O.told output.old).faults (O.told output.new).faults result }
{
    match send(output, first) {
        Ok(()) => match send(output, second) {
            Ok(()) => Ok(()),
            Err(failed) => Err(failed),
        },
        Err(failed) => Err(failed),
    }
}

/// Writes three pieces one after another.
pub(crate) fn send_three<O: Sink>(
    output: &mut O,
    first: &[u8],
    second: &[u8],
    third: &[u8],
) -> Result<(), Failed>
    ensures ok { OnOk result (Took (O.told output.old) (O.told output.new)
        (first.now ++ (second.now ++ third.now))) }
    ensures front { OnErr result (TookFront (O.told output.old) (O.told output.new)
        (first.now ++ (second.now ++ third.now))) }
    ensures cause { HasCause (O.told output.old).faults (O.told output.new).faults result }
{
    match send(output, first) {
        Ok(()) => match send_two(output, second, third) {
            Ok(()) => Ok(()),
            Err(failed) => Err(failed),
        },
        Err(failed) => Err(failed),
    }
}
