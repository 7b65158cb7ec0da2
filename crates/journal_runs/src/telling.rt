//! What is told of a run that doesn't begin, and of one whose entries are not all kept.
ghost use Rattle.std.specs.Prelude.{◌≡◌, slice_get};
ghost use Rattle.std.specs.Option.{option_copied};
ghost use Rattle.keep_status.specs.Endings.{Told, administrator};
ghost use Rattle.cmis_spec.specs.Repository.{administrator_of};
ghost use Rattle.journal_runs.specs.Ends.{IsUnkept, TellsPeople, TellsNotBegun, TellsStop, TellsLost};

use crate::explains::Explains;
use crate::kept_stop::KeptStop;
use cm_base::text::Text;
use journal_keeper::Lost;
use journal_people::People;
use journal_start::BeginStop;
use keep_status::{WhyUnkept, tell_administrator, tell_damaged, tell_lacking, tell_unkept};
use outside::Sink;
use std::alloc::Global;

/// The status where memory is wanted.
const WANTS_MEMORY: u8 = 7;

// The name of the first user, if there is one.
fn first_of(names: &[Text]) -> Option<&Text>
    ensures { option_copied result ≡ slice_get names.now 0 }
{
    names.first()
}

// Tells who is the administrator of the file.
fn tell_other<O: Sink>(alloc: Global, output: &mut O, kept: &People) -> u8
    ensures { Told 10 (administrator (administrator_of kept.now.names)) (O.told output.old) (O.told output.new) result }
{
    match first_of(kept.names().as_slice()) {
        Some(name) => tell_administrator(output, name),
        None => {
            let nobody = Text::empty(alloc);
            tell_administrator(output, &nobody)
        }
    }
}

// Tells what the words of the run lack of the people of the file.
fn tell_people<O: Sink>(alloc: Global, output: &mut O, kept: &People, asked: &People) -> u8
    ensures { TellsPeople kept.now asked.now (O.told output.old) (O.told output.new) result }
{
    match kept.lacking(asked) {
        Some(name) => tell_lacking(output, name),
        None => tell_other(alloc, output, kept),
    }
}

// Tells why a disk has failed.
fn tell_failed<O: Sink, K: Explains>(output: &mut O, disk: &K) -> u8
    ensures { IsUnkept (O.told output.old) (O.told output.new) result }
{
    tell_unkept(output, disk.why())
}

// Tells why a journal isn't begun.
fn tell_not_begun<O: Sink, K: Explains>(
    alloc: Global,
    output: &mut O,
    disk: &K,
    asked: &People,
    stop: &BeginStop<People>,
) -> u8
    ensures { TellsNotBegun asked.now stop.now (O.told output.old) (O.told output.new) result }
{
    match stop {
        BeginStop::Fault => tell_failed(output, disk),
        BeginStop::Damaged(entries) => tell_damaged(output, *entries),
        BeginStop::Stopped(entries) => tell_damaged(output, *entries),
        BeginStop::People(kept) => tell_people(alloc, output, kept, asked),
        BeginStop::Memory => WANTS_MEMORY,
    }
}

/// Writes why a run with these people doesn't begin, and answers its status, also where that could not be written: 7 where memory was wanted,
/// of which nothing is written; 9 where the disk failed, or a new session has no number; 10 where the people of the file exclude those of the run;
/// 11 where the file is damaged.
pub fn tell_stop<O: Sink, K: Explains>(
    alloc: Global,
    output: &mut O,
    disk: &K,
    asked: &People,
    stop: &KeptStop<People>,
) -> u8
    ensures { TellsStop asked.now stop.now (O.told output.old) (O.told output.new) result }
{
    match stop {
        KeptStop::NotBegun(stop) => tell_not_begun(alloc, output, disk, asked, stop),
        KeptStop::Sessions => tell_unkept(output, WhyUnkept::Other),
    }
}

/// Writes why not all entries of a run are kept, and answers its status, also where that could not be written: 7 where memory was wanted,
/// of which nothing is written, and else 9.
pub fn tell_lost<O: Sink, K: Explains>(output: &mut O, disk: &K, lost: Option<Lost>) -> u8
    ensures { TellsLost lost (O.told output.old) (O.told output.new) result }
{
    match lost {
        Some(Lost::Memory) => WANTS_MEMORY,
        Some(Lost::Session) => tell_unkept(output, WhyUnkept::Other),
        Some(Lost::Unread) => tell_unkept(output, WhyUnkept::NotRead),
        Some(Lost::Disk) | Some(Lost::Before) | None => tell_failed(output, disk),
    }
}
