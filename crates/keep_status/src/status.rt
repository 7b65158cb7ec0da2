//! The statuses of a run over a journal that is damaged, another's, or not kept, and the lines with which it ends.
ghost use Rattle.std.specs.Prelude.{◌++◌, ◌∷◌, []};
ghost use Rattle.keep_status.specs.Endings.{Told, administrator, damaged, lacking, unkept};

use crate::sending::send_three;
use crate::why::WhyUnkept;
use cm_base::text::Text;
use http_reply::send;
use itoa::Buffer;
use outside::Sink;

/// The status where the journal can't be kept.
const NOT_KEPT: u8 = 9;

/// The status where the journal has other people than the words.
const HAS_OTHERS: u8 = 10;

/// The status where the journal is damaged.
const IS_DAMAGED: u8 = 11;

// Writes a line that names something, and answers this status, also where it could not be written.
fn tell<O: Sink>(output: &mut O, due: u8, saying: &[u8], named: &[u8]) -> u8
    ensures { Told due (saying.now ++ (named.now ++ 10 ∷ [])) (O.told output.old) (O.told output.new) result }
{
    match send_three(output, saying, named, b"\n") {
        Ok(()) => due,
        Err(_) => due,
    }
}

/// Writes that the journal is damaged behind so many good entries, and answers the status 11, also where it could not be written.
pub fn tell_damaged<O: Sink>(output: &mut O, entries: u64) -> u8
    ensures { Told 11 (damaged entries) (O.told output.old) (O.told output.new) result }
{
    let mut buffer = Buffer::new();
    let digits = buffer.format(entries);
    tell(
        output,
        IS_DAMAGED,
        "journal is damaged at ".as_bytes(),
        digits.as_bytes(),
    )
}

/// Writes that the journal has a user of this name, whom the words lack, and answers the status 10, also where it could not be written.
pub fn tell_lacking<O: Sink>(output: &mut O, name: &Text) -> u8
    ensures { Told 10 (lacking name.now) (O.told output.old) (O.told output.new) result }
{
    tell(
        output,
        HAS_OTHERS,
        "journal has a user that the words lack: ".as_bytes(),
        name.bytes(),
    )
}

/// Writes that the journal's administrator has this name and is not that of the words, and answers the status 10, also where it could not be written.
pub fn tell_administrator<O: Sink>(output: &mut O, name: &Text) -> u8
    ensures { Told 10 (administrator name.now) (O.told output.old) (O.told output.new) result }
{
    tell(
        output,
        HAS_OTHERS,
        "journal has another administrator: ".as_bytes(),
        name.bytes(),
    )
}

/// Writes why the journal can't be kept and what to do, and answers the status 9, also where it could not be written.
pub fn tell_unkept<O: Sink>(output: &mut O, why: WhyUnkept) -> u8
    ensures { Told 9 (unkept why) (O.told output.old) (O.told output.new) result }
{
    match send(output, why.line().as_bytes()) {
        Ok(()) => NOT_KEPT,
        Err(_) => NOT_KEPT,
    }
}
