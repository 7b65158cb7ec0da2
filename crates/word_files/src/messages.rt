//! The lines that the program writes where files that its words name are not taken.
ghost use Rattle.std.specs.Prelude.{◌≡◌, string_bytes, IfOk};
ghost use Rattle.word_files.specs.Messages.{Refused, message_of, word_of};

use crate::listed::{FileStop, Listed};
use http_reply::send;
use outside::Sink;
use std::alloc::{AllocError, Global};

/// The status of words that the program does not have.
const NOT_THE_PROGRAMS: u8 = 2;

/// The status where memory is wanted.
const WANTS_MEMORY: u8 = 7;

fn word(listed: Listed) -> &'static str
    ensures { result.now ≡ word_of listed }
{
    match listed {
        Listed::Users => "users",
        Listed::Groups => "groups",
    }
}

fn message(alloc: Global, stop: FileStop) -> Result<String, AllocError>
    ensures { IfOk result (λ text. string_bytes text ≡ message_of stop) }
{
    match stop {
        FileStop::NotRead(listed) => {
            let word = word(listed);
            format!(in alloc; "cmisd: file of {word} is not readable\n")
        }
        FileStop::Shared(listed) => {
            let word = word(listed);
            format!(in alloc; "cmisd: file of {word} is open to others\n")
        }
        FileStop::Line(listed, number) => {
            let word = word(listed);
            format!(in alloc; "cmisd: line {number} of {word} is not valid\n")
        }
        FileStop::Memory => Ok(String::new(alloc)),
    }
}

/// Writes why the files that words name do not stand for lists, and answers the status: 2, also where the line could not be written, and 7 where memory
/// was wanted. The line tells nothing of what the files hold.
pub fn refuse_files<O: Sink>(alloc: Global, output: &mut O, stop: FileStop) -> u8
    ensures { Refused (O.told output.old) (O.told output.new) stop result }
{
    match stop {
        FileStop::Memory => WANTS_MEMORY,
        _ => match message(alloc, stop) {
            Ok(text) => match send(output, text.as_bytes()) {
                Ok(()) => NOT_THE_PROGRAMS,
                Err(_) => NOT_THE_PROGRAMS,
            },
            Err(_) => WANTS_MEMORY,
        },
    }
}
